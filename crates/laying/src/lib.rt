// One stretch laid, from a job to gates with the same meaning, each CNOT on a coupler; the demands
// of one stretch are theorems here. Of a way it knows only what `columns` asks of any.
#![tactic(auto)]

pub mod lay;
mod stands;
