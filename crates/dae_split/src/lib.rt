// The split of a structured form into the streams of the two processors. It takes a form and the classes of its
// variables, and gives the pair of streams that the definitions of the structured form make of them: the groups, the
// messages, the copies and the regions. It promises just that pair, and fails only where memory is wanting.
#![tactic(auto)]

pub use regions::is_jump;
pub use streams::split;

mod classes;
mod groups;
mod items;
mod parts;
mod regions;
mod streams;
mod walk;
mod work;
