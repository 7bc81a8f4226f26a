//! Calls of the jobs that tell a run of an image step by step: `trace` and `debug`, with what is due where nothing fails.

/// Calls of the jobs that tell a run of an image step by step, `trace` and `debug`.
pub const TRACES: &str =
    r#"trace p|beside|0|1||A 00000000`^A 00000004`^F E 0 00000007`^A 00000008`^E 00000000`^E 00000004`^D 00000010 4 00000008`^E 00000008`|budget ld 1 al 0 sa 1 sd 1 ab 0 eb 0 cq 0`^ended 7`^steps 8`
trace p|there|9|1||A 00000000`^A 00000004`^A 00000008`|budget ld 1 al 0 sa 1 sd 1 ab 0 eb 0 cq 0`^stuck A halted, E waits ld`^steps 3`
debug p s|beside|0|1||A 00000000`^A 00000004`^F E 0 00000007`^ld 1`al 0`sa 1`sd 0`ab 0`eb 0`cq 0`^00000010 4`^not enabled`^taken 8`^memory 16: 08 00 00 00`|budget ld 1 al 0 sa 1 sd 1 ab 0 eb 0 cq 0`^ended 7`^steps 8`|s|step A`step A`step F E 0`queues`stores`step D`go 100`memory 16 4`
debug p s|there|3|1||taken 1`^bad command`|budget ld 1 al 0 sa 1 sd 1 ab 0 eb 0 cq 0`^running`^steps 1`|s|go 1`step B`
trace --steps=3 p|beside|3|1||A 00000000`^A 00000004`^F E 0 00000007`|budget ld 1 al 0 sa 1 sd 1 ab 0 eb 0 cq 0`^running`^steps 3`
trace --schedule=a p|beside|0|1||A 00000000`^A 00000004`^A 00000008`^F E 0 00000007`^E 00000000`^E 00000004`^E 00000008`^D 00000010 4 00000008`|budget ld 1 al 0 sa 1 sd 1 ab 0 eb 0 cq 0`^ended 7`^steps 8`
trace p|4441453102000000010000000000000001000000010000000000000000000000000000004000000001000000000000000000|8|1|||image short 50`
debug p s|beside|3|1||A 00000000`^A 00000004`^F E 0 00000007`^ld 1`al 0`sa 1`sd 0`ab 0`eb 0`cq 0`^00000010 4`^not enabled`|budget ld 1 al 0 sa 1 sd 1 ab 0 eb 0 cq 0`^running`^steps 3`|s|step A`step A`step F E 0`queues`stores`step D`
debug p s|beside|0|1||taken 8`|budget ld 1 al 0 sa 1 sd 1 ab 0 eb 0 cq 0`^ended 7`^steps 8`|s|go 100`
debug p s|beside|3|1||bad command`|budget ld 1 al 0 sa 1 sd 1 ab 0 eb 0 cq 0`^running`^steps 0`|s|step B`
debug p s|4441453102000000010000000000000001000000010000000000000000000000000000004000000001000000000000000000|8|1|||image short 50`|s|go 100`"#;
