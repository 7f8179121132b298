// The versions of OpenQASM that are read and written. It knows nothing else.
#![tactic(auto)]

#[derive(Clone, Copy)]
pub enum Version {
    Two,
    Three,
}
