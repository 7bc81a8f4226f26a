//! Rows of words, with single blanks between them, and behind a bar the text of the job that they spell, which is empty where they spell
//! none.

pub const ROWS: &str = r#"run a.c|run 8,8,8,8,8,8,8 round 10000000 - 1048576,1000,4 a.c
run --ld=2 --ld=3 a.c|
run --ld=2 --sa=2 --ld=2 a.c|
run --ld=+2 a.c|
run --ld=08 a.c|
run --ld=-0 a.c|
run --ld=0 a.c|
run --ld=4096 --cq=1 a.c|run 4096,8,8,8,8,8,1 round 10000000 - 1048576,1000,4 a.c
run --ld=4097 a.c|
run --ld=18446744073709551618 a.c|
run --ld= a.c|
run --ld a.c|
run --ld 2 a.c|
run --ld=2=2 a.c|
run -ld=2 a.c|
run ---ld=2 a.c|
run --=2 a.c|
run --Ld=2 a.c|
run --files=2 a.c|
run --other=2 a.c|
run --to=x a.c|
run --load=8 a.c|
run a.c --ld=2|
run a.c b.c --cap=2|
run --ld=2|
run|
run --|
run -- a.c|
run --help|
run -h|
run help|run 8,8,8,8,8,8,8 round 10000000 - 1048576,1000,4 help
help|
--help|
-h|
runs a.c|
Run a.c|
run -a.c|
run a.c -b|
run -|
run  a.c|
run a.c |
 run a.c|
run --schedule=round --steps=1 --show=16,64 a.c b.c|run 8,8,8,8,8,8,8 round 1 Shown { address: 16, count: 64 } 1048576,1000,4 a.c b.c
run --show=16,0 a.c|
run --show=16,65 a.c|
run --show=16 a.c|
run --show=16,1,1 a.c|
run --show=4294967295,1 a.c|run 8,8,8,8,8,8,8 round 10000000 Shown { address: 4294967295, count: 1 } 1048576,1000,4 a.c
run --show=4294967296,1 a.c|
run --schedule=seed: a.c|
run --schedule=seed:0 a.c|run 8,8,8,8,8,8,8 seed:0 10000000 - 1048576,1000,4 a.c
run --schedule=seed:07 a.c|
run --schedule=seed:4294967295 a.c|run 8,8,8,8,8,8,8 seed:4294967295 10000000 - 1048576,1000,4 a.c
run --schedule=seed:4294967296 a.c|
run --schedule=seed a.c|
run --schedule=Round a.c|
run --schedule=fill --cap=64 --calls=4096 --memory=64 a.c|run 8,8,8,8,8,8,8 fill 10000000 - 64,4096,64 a.c
run --memory=63 a.c|
run --memory=72 a.c|
run --memory=67108864 a.c|run 8,8,8,8,8,8,8 round 10000000 - 67108864,1000,4 a.c
run --memory=67108880 a.c|
run --calls=0 a.c|
run --cap=65 a.c|
run --steps=1000000000000 a.c|run 8,8,8,8,8,8,8 round 1000000000000 - 1048576,1000,4 a.c
run --steps=1000000000001 a.c|
run --steps=0 a.c|
exec p|exec 8,8,8,8,8,8,8 round 10000000 - p
exec --schedule=drain --eb=7 p|exec 8,8,8,8,8,7,8 drain 10000000 - p
exec --cap=4 p|
exec p q|
exec|
trace p|trace 8,8,8,8,8,8,8 round 10000000 - p
trace --schedule=a --steps=5 --al=3 p|trace 8,3,8,8,8,8,8 a 5 - p
trace --show=16,1 p|
trace --memory=64 p|
compile --to=x a.c|compile 1048576,1000,4 x a.c
compile --calls=7 --to=x=y --cap=64 a.c b.c|compile 1048576,7,64 x=y a.c b.c
compile a.c|
compile --to= a.c|
compile --to=-x a.c|
compile --to=x --to=x a.c|
compile --to=x --ld=2 a.c|
compile --to=x|
report --memory=128 a.c b.c|report 128,1000,4 a.c b.c
report --to=x a.c|
report --ld=2 a.c|
report|
check p t|check 8,8,8,8,8,8,8 p t
check --sd=1 --ab=2 p t|check 8,8,8,1,2,8,8 p t
check p|
check p t u|
check --steps=1 p t|
check --schedule=a p t|
debug --eb=3 p s|debug 8,8,8,8,8,3,8 p s
debug p|
guard --al=4096 p c|guard 8,4096,8,8,8,8,8 p c
guard p|
guard --cap=1 p c|
time p|time 8,8,8,8,8,8,8 round 10000000 - 8,3,20 10000000 p
time --load=1 --mul=1000 --div=1 --ticks=100000000000 --show=0,1 --ld=3 p|time 3,8,8,8,8,8,8 round 10000000 Shown { address: 0, count: 1 } 1,1000,1 100000000000 p
time --load=0 p|
time --mul=1001 p|
time --ticks=100000000001 p|
time --ticks=0 p|
time --steps=1 p|
time --schedule=a p|
time p q|
asm --to=x t|asm x t
asm t|
asm --to=x|
asm --to=x t u|
asm --ld=1 --to=x t|
dis p|dis p
dis --to=x p|
dis --ld=8 p|
dis p q|
dis|
big 1|big 8,8,8,8,8,8,8 round 10000000 - 1048576,1000,4 1
big 900 |
big 900|big 8,8,8,8,8,8,8 round 10000000 - 1048576,1000,4 900
big --cap=1 --ld=9 --show=7,7 12|big 9,8,8,8,8,8,8 round 10000000 Shown { address: 7, count: 7 } 1048576,1000,1 12
big 0|
big 901|
big 08|
big +8|
big a.c|
big 3 4|
big --to=x 3|
big|
exec -p|
exec --ld=2|
exec p --ld=2|
exec --ld p|
exec --ld=0 p|
exec --ld=08 p|
exec --ld=+2 p|
exec --ld=4097 p|
exec --ld=2 --ld=2 p|
exec --steps=1000000000001 p|
exec --show=16 p|
exec --show=16,65 p|
exec --show=16,1,1 p|
exec --schedule=seed: p|
exec --schedule=seed:4294967296 p|
exec --to=x p|
run --to=x p|
run --memory=63 p|
run --memory=72 p|
run --memory=67108880 p|
run --calls=0 p|
run --cap=65 p|
run p --cap=4|
runs p|
compile p|
compile --to=x --to=x p|
compile --to=-x p|
compile --to=x --ld=2 p|
run --cap=64 --ld=2 --calls=4096 --memory=64 p|run 2,8,8,8,8,8,8 round 10000000 - 64,4096,64 p
exec --steps=1000000000000 --schedule=seed:1 --show=0,64 --cq=1 p|exec 8,8,8,8,8,8,1 seed:1 1000000000000 Shown { address: 0, count: 64 } p
compile --calls=7 --to=x=y --cap=64 p q|compile 1048576,7,64 x=y p q"#;
