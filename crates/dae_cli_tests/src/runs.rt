//! Calls of the jobs that run an image: `exec` and `time`, with what is due where nothing fails.

/// A store to address 16, whose datum is one more than the word at address 20, which is loaded behind it.
pub const STORES_BESIDE: &str = "\
    444145310200000001000000000000000100000001000000000000000000000000000000400000000100000000000000\
    00000000000000000000000003000000030000000800000000000000000000002328e001032f40017300000013050f00\
    130f1500730000000000000007000000";

/// The same, but the load is of the bytes that the store is to write: the execute processor waits for ever.
pub const STORES_THERE: &str = "\
    444145310200000001000000000000000100000001000000000000000000000000000000400000000100000000000000\
    00000000000000000000000003000000030000000800000000000000000000002328e001032f00017300000013050f00\
    130f1500730000000000000007000000";

/// The execute processor prints four numbers, each with a line feed, and ends.
pub const PRINTS: &str = "\
    444145310200000000000000000000000000000000000000000000000000000000000000400000000100000000000000\
    000000000000000000000000010000001b000000000000000000000000000000730000001305b0009308200073000000\
    1305a00093081000730000001305600193082000730000001305a0009308100073000000130510029308200073000000\
    1305a00093081000730000001305c00293082000730000001305a0009308100073000000130550009308000073000000";

/// Ten products in a loop.
pub const PRODUCTS: &str = "\
    444145310200000001000000010000000100000001000000010000000100000001000000400000000100000010000000\
    1000000000000000000000000100000006000000000000000000000000000000730000009302a000338352029382f2ff\
    e39c02fe1305030073000000";

/// Messages and copies of A to an E that quotients hold back.
pub const MESSAGES_TO_E: &str = "\
    444145310200000001000000010000000100000001000000010000000100000001000000400000000100000010000000\
    100000000000000000000000070000000d000000000000000000000000000000930e7000930e9000930eb000130e3000\
    130e4000130e50007300000093820e0033c3520213830e00b313530293830e0033f5630293020e0033e5530293020e00\
    b3b5530213030e003385620273000000";

/// Messages and data of stores of E to an A that quotients hold back.
pub const MESSAGES_TO_A: &str = "\
    444145310200000001000000010000000100000001000000010000000100000001000000400000000100000010000000\
    1000000000000000000000000c00000007000000000000000000000000000000b352730213830e00b342630213830e00\
    2328e001b3726302232ae001b3226302232ce001832f400193830f0073000000930e1000930e2000130f5000130f6000\
    130f70001305300073000000";

/// A program that prints, and traps.
pub const TRAPS: &str = "\
    444145310200000001000000010000000100000001000000010000000100000001000000400000000100000010000000\
    100000000000000000000000010000000900000000000000000000000000000073000000130540059308100073000000\
    130590ff9308200073000000130550009308500073000000";

/// Calls of the jobs that run an image, `exec` and `time`.
pub const RUNS: &str =
    r#"exec --show=16,1 p|prints|0|1||11^`^22^`^33^`^44^`|budget ld 0 al 0 sa 0 sd 0 ab 0 eb 0 cq 0`^ended 5`^steps 28`^memory 16: 00`
exec p|there|9|3|||budget ld 1 al 0 sa 1 sd 1 ab 0 eb 0 cq 0`^stuck A halted, E waits ld`^steps 3`
exec --steps=3 p|beside|3|3|||budget ld 1 al 0 sa 1 sd 1 ab 0 eb 0 cq 0`^running`^steps 3`
exec p|44414531|8|1|||image short 4`
time --show=16,1 p|prints|0|1||11^`^22^`^33^`^44^`|budget ld 0 al 0 sa 0 sd 0 ab 0 eb 0 cq 0`^ended 5`^steps 28`^memory 16: 00`^ticks 27`^waits A ld 0 al 0 sa 0 ab 0 eb 0 cq 0`^waits E ld 0 sd 0 ab 0 eb 0 cq 0`
time --ticks=11 p|beside|3|6|||budget ld 1 al 0 sa 1 sd 1 ab 0 eb 0 cq 0`^running`^steps 6`^ticks 11`^waits A ld 0 al 0 sa 0 ab 0 eb 0 cq 0`^waits E ld 9 sd 0 ab 0 eb 0 cq 0`
time p|there|9|6|||budget ld 1 al 0 sa 1 sd 1 ab 0 eb 0 cq 0`^stuck A halted, E waits ld`^steps 3`^ticks 3`^waits A ld 0 al 0 sa 0 ab 0 eb 0 cq 0`^waits E ld 3 sd 0 ab 0 eb 0 cq 0`
time --load=1 p|beside|0|6|||budget ld 1 al 0 sa 1 sd 1 ab 0 eb 0 cq 0`^ended 7`^steps 8`^ticks 5`^waits A ld 0 al 0 sa 0 ab 0 eb 0 cq 0`^waits E ld 2 sd 0 ab 0 eb 0 cq 0`
time --ld=1 --sa=1 --sd=1 --mul=1000 --div=1 --show=16,8 p|beside|0|7|||budget ld 1 al 0 sa 1 sd 1 ab 0 eb 0 cq 0`^ended 7`^steps 8`^memory 16: 08 00 00 00 07 00 00 00`^ticks 12`^waits A ld 0 al 0 sa 0 ab 0 eb 0 cq 0`^waits E ld 9 sd 0 ab 0 eb 0 cq 0`
time --mul=1 p|products|0|6|||budget ld 1 al 1 sa 1 sd 1 ab 1 eb 1 cq 1`^ended 1`^steps 34`^ticks 33`^waits A ld 0 al 0 sa 0 ab 0 eb 0 cq 0`^waits E ld 0 sd 0 ab 0 eb 0 cq 0`
time --mul=1000 p|products|0|6|||budget ld 1 al 1 sa 1 sd 1 ab 1 eb 1 cq 1`^ended 1`^steps 34`^ticks 10023`^waits A ld 0 al 0 sa 0 ab 0 eb 0 cq 0`^waits E ld 0 sd 0 ab 0 eb 0 cq 0`
time --ld=1 --al=1 --sa=1 --sd=1 --ab=1 --eb=1 --cq=1 p|to-e|0|6|||budget ld 1 al 1 sa 1 sd 1 ab 1 eb 1 cq 1`^ended 20`^steps 20`^ticks 77`^waits A ld 0 al 0 sa 0 ab 20 eb 0 cq 43`^waits E ld 0 sd 0 ab 1 eb 0 cq 0`
time --ld=1 --al=1 --sa=1 --sd=1 --ab=1 --eb=1 --cq=1 p|to-a|0|6|||budget ld 1 al 1 sa 1 sd 1 ab 1 eb 1 cq 1`^ended 3`^steps 23`^ticks 78`^waits A ld 0 al 7 sa 0 ab 0 eb 0 cq 0`^waits E ld 0 sd 40 ab 0 eb 20 cq 0`
time p|traps|1|1||T^-7|budget ld 1 al 1 sa 1 sd 1 ab 1 eb 1 cq 1`^trapped 5`^steps 10`^ticks 9`^waits A ld 0 al 0 sa 0 ab 0 eb 0 cq 0`^waits E ld 0 sd 0 ab 0 eb 0 cq 0`
time --ticks=3 p|traps|3|1||T|budget ld 1 al 1 sa 1 sd 1 ab 1 eb 1 cq 1`^running`^steps 4`^ticks 3`^waits A ld 0 al 0 sa 0 ab 0 eb 0 cq 0`^waits E ld 0 sd 0 ab 0 eb 0 cq 0`
time p|4441453102000000010000000000000001000000010000000000000000000000000000004000000001000000000000000000|8|1|||image short 50`"#;
