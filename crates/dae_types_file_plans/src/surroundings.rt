// What a statement's rules ask of what stands round it.

/// What stands round a statement: the type of what its function returns, unless that is faulty, and whether that function is
/// main; and whether `break` and `continue` have a loop to end, and `break` a switch.
#[derive(Clone, Copy)]
pub struct Surrounding {
    pub result: Option<usize>,
    pub is_main: bool,
    pub inside_loop: bool,
    pub inside_switch: bool,
}
