//! Calls of the other jobs over images, with what is due where nothing fails.

/// The access processor goes three times through a loop and tells the execute processor at its end.
pub const LOOPS: &str = "\
    444145310200000001000000010000000000000000000000010000000000000000000000400000000100000000000000\
    0000000000000000000000000800000003000000080000000000000000000000832f000193820f00032f40019382f2ff\
    33335000930e0300e31803fe7300000013050f00e39e0efe730000000300000009000000";

/// The trace of the first image by the round.
pub const TRACE: &str =
    "A 00000000\nA 00000004\nF E 0 00000007\nA 00000008\nE 00000000\nE 00000004\nD 00000010 4 00000008\nE 00000008\n";

/// The listing of the first image.
pub const LISTING: &str =
    ".budget 1 0 1 1 0 0 0\n.memory 64\n.calls 1\n.private 0 0\n.entry 0 0\n.a\nsw x30,16(x0)\nlw x30,20(x0)\necall\n.e\naddi x10,x30,0\naddi x30,x10,1\necall\n.data\n.byte 0 0 0 0 7 0 0 0\n";

/// Calls of the other jobs over images.
pub const OTHERS: &str =
    r#"check p t|beside|0|2|||budget ld 1 al 0 sa 1 sd 1 ab 0 eb 0 cq 0`^ended 7`|t|@trace
check p t|beside|10|2|||budget ld 1 al 0 sa 1 sd 1 ab 0 eb 0 cq 0`^not-a-run 8`|t|A 00000000`A 00000004`F E 0 00000007`A 00000008`E 00000000`E 00000004`D 00000010 4 00000008`E 00000008
check p t|beside|3|2|||budget ld 1 al 0 sa 1 sd 1 ab 0 eb 0 cq 0`^running`|t|
dis p|beside|0|0||@listing|
dis p|4441453102000000010000000000000001000000010000000000000000000000000000004000000001000000000000000000|8|1|||image short 50`
guard p c|loops|0|1|||guarded`|c|node 8 0`e 17 0 0 1`
guard p c|loops|2|1|||refused guard-step 1`|c|node 8 0`
guard p c|loops|2|1|||refused guard-line 1`|c|node 8`
check p t|beside|10|2|||budget ld 1 al 0 sa 1 sd 1 ab 0 eb 0 cq 0`^not-a-run 2`|t|A 00000000`A 00000000`A 00000004`F E 0 00000007`A 00000008`E 00000000`E 00000004`D 00000010 4 00000008`E 00000008`
check p t|beside|10|2|||budget ld 1 al 0 sa 1 sd 1 ab 0 eb 0 cq 0`^not-a-run 1`|t|A 00000008`A 00000000`A 00000004`F E 0 00000007`E 00000000`E 00000004`D 00000010 4 00000008`E 00000008`
check p t|there|3|2|||budget ld 1 al 0 sa 1 sd 1 ab 0 eb 0 cq 0`^running`|t|A 00000000`A 00000004`A 00000008`
check p t|there|10|2|||budget ld 1 al 0 sa 1 sd 1 ab 0 eb 0 cq 0`^not-a-run 3`|t|@trace
check p t|4441453102000000010000000000000001000000010000000000000000000000000000004000000001000000000000000000|8|1|||image short 50`|t|@trace
guard p c|loops|2|1|||refused guard-long 0`|c|
guard p c|4441453102000000010000000000000001000000010000000000000000000000000000004000000001000000000000000000|8|1|||image short 50`|c|node 8 0`e 17 0 0 1`
guard --al=1 --ab=1 p c|4441453102000000090000000100000000000000000000000100000000000000000000004000000001000000000000000000000000000000000000000800000003000000080000000000000000000000832f000193820f00032f40019382f2ff33335000930e0300e31803fe7300000013050f00e39e0efe730000000300000009000000|4|1|||depth ld needs 9 has 8`|c|node 8 0`e 17 0 0 1`"#;
