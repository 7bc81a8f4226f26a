// Which processor needs each variable of a structured program: A those that lead to an address, and E those that lead to
// what is stored, printed or decided there. It takes a form, gives a table of classes, and promises that the two
// families of sets are closed under "leads to" and the least that are. The variables are the vertices of a graph, and
// what leads to a needed vertex is found from it backwards, once along each link. Nothing fails but for want of memory.
#![tactic(auto)]

pub use tables::{classes, decider};

mod graph;
mod items;
mod source_nodes;
mod tables;
mod walk;
