// What every way of laying shares: the columns of the terms, turned and struck off, and what a way
// has to meet. It knows circuits and the graph, and no way.
#![tactic(auto)]

pub mod striking;
pub mod turning;
pub mod way;
pub mod work;
