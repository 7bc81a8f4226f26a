// Tests of shelves and sinks: in memory, with room for so much, and of real files.

ghost use Rattle.std.specs.Prelude.{◌≡◌, ◌≢◌, ◌∷◌, [], ◌++◌, take, IfSome};
ghost use Rattle.std.specs.Io.KnownBytes.{Appends};
ghost use Rattle.dae_io.specs.Faults.{Rose, fetch_of};
ghost use Rattle.dae_io.specs.Sinks.{AppendsPrefix};

use dae_io::{
    CalmShelf, CalmSink, DirShelf, FailingCall, FetchError, MemShelf, MemSink, NamedText, Shelf,
    Sink, SinkFailed, StdSink,
};
use std::alloc::{AllocError, Global};
use std::fs;
use std::process::Abort;
use std::test::Fail;

// A line of the first hundred bytes of a text, in two puts.
fn pass_on<F: Shelf, O: Sink>(alloc: Global, name: &str, shelf: &mut F, out: &mut O) -> u8
    ensures fetched { result ≡ 5 → Rose (F.count shelf.old) (F.count shelf.new) }
    ensures fault { result ≡ 5 → F.last shelf.new ≡ fetch_of name.now }
    ensures put { result ≡ 6 → Rose (O.seen out.old).count (O.seen out.new).count }
    ensures prefix { result ≡ 6 → IfSome (F.told shelf.old name.now) (λ text.
        AppendsPrefix (O.seen out.old).taken (O.seen out.new).taken (take 100 text ++ 10 ∷ [])) }
    ensures whole { result ≡ 0 → IfSome (F.told shelf.old name.now) (λ text.
        Appends (O.seen out.old).taken (O.seen out.new).taken (take 100 text ++ 10 ∷ [])) }
{
    let text = match shelf.fetch(alloc, name, 100) {
        Ok(text) => text,
        Err(FetchError::Failed) => return 5,
        Err(FetchError::Memory) => return 7,
    };
    if out.put(text.as_slice()).is_err() {
        return 6;
    }
    if out.put(b"\n").is_err() {
        return 6;
    }
    0
}

// Objects without faults answer for nothing but memory.
fn pass_on_calmly(alloc: Global, texts: &[NamedText<'_>]) -> u8
    ensures fetched { result ≢ 5 }
    ensures put { result ≢ 6 }
{
    let mut shelf = CalmShelf::new(texts);
    pass_on(alloc, "a", &mut shelf, &mut CalmSink::new())
}

fn boxed(alloc: Global, shelf: MemShelf) -> Result<Box<MemShelf>, AllocError> {
    Ok(Box::new(alloc, shelf)?)
}

/// A shelf of which the fetch with this number fails, with a text held under two names or none.
fn shelf_of(alloc: Global, row: &Passed) -> Result<Box<MemShelf>, AllocError> {
    let failing = [FailingCall {
        call: row.0,
        taken: 0,
    }];
    let shelf = MemShelf::new(alloc, &failing)?;
    let mut shelf = boxed(alloc, shelf)?;
    if row.2 {
        hold_texts(alloc, &mut shelf)?;
    }
    Ok(shelf)
}

fn hold_texts(alloc: Global, shelf: &mut MemShelf) -> Result<(), AllocError> {
    shelf.hold(alloc, "a", b"xyz")?;
    shelf.hold(alloc, "a", b"abc")?;
    shelf.hold(alloc, "b", b"")
}

/// A sink with room for four bytes, of which the put with this number takes two and fails.
fn sink_of(alloc: Global, put: u64) -> Result<Box<MemSink>, AllocError> {
    let failing = [FailingCall {
        call: put,
        taken: 2,
    }];
    let sink = MemSink::with_room(alloc, 4, &failing)?;
    Ok(Box::new(alloc, sink)?)
}

/// The numbers of the failing fetch and put, whether the text is held, the answer, and what is taken.
type Passed = (u64, u64, bool, u8, &'static [u8]);

static PASSED: [Passed; 5] = [
    (0, 0, true, 0, b"abc\n"),
    (1, 0, true, 5, b""),
    (0, 0, false, 5, b""),
    (0, 1, true, 6, b"ab"),
    (0, 2, true, 6, b"abc\n"),
];

fn rows_passed() -> &'static [Passed] {
    PASSED.as_slice()
}

fn check_passed(rt: &impl Abort, alloc: Global, row: &Passed) -> Result<(), AllocError> {
    let (_, put, _, answer, taken) = row;
    let mut shelf = shelf_of(alloc, row)?;
    let mut sink = sink_of(alloc, *put)?;
    assert_eq!(rt; pass_on(alloc, "a", shelf.as_mut(), sink.as_mut()), *answer);
    assert_eq!(rt; sink.taken.as_slice(), *taken);
    Ok(())
}

fn check_all_passed(rt: &impl Abort, alloc: Global, rows: &[Passed]) -> Result<(), AllocError> {
    for row in rows {
        check_passed(rt, alloc, row)?;
    }
    Ok(())
}

#[test]
fn texts_pass_on(rt: HostRuntime) -> Result<(), AllocError> {
    check_all_passed(&rt, rt.alloc(), rows_passed())?;
    assert_eq!(rt; pass_on_calmly(rt.alloc(), &[]), 0);
    Ok(())
}

fn check_room(rt: &impl Abort, sink: &mut MemSink) {
    assert_eq!(rt; sink.put(b"ab"), Ok(()));
    assert_eq!(rt; sink.put(b"cd"), Err(SinkFailed));
    assert_eq!(rt; sink.put(b"e"), Ok(()));
    assert_eq!(rt; sink.taken.as_slice(), b"abe".as_slice());
    assert_eq!(rt; (sink.calls, sink.count), (3, 1));
}

#[test]
fn sinks_have_room(rt: HostRuntime) -> Result<(), AllocError> {
    let sink = MemSink::with_room(rt.alloc(), 3, &[])?;
    let mut sink = Box::new(rt.alloc(), sink)?;
    check_room(&rt, &mut sink);
    Ok(())
}

/// A keep of a text of which two bytes have room is done so.
fn check_keep(
    rt: &impl Abort,
    alloc: Global,
    shelf: &mut MemShelf,
    (name, text, kept): (&str, &[u8], bool),
) -> Result<(), AllocError> {
    shelf.make_room(alloc, 1, 2)?;
    assert_eq!(rt; shelf.keep(name, text).is_ok(), kept);
    Ok(())
}

fn check_keeps(rt: &impl Abort, alloc: Global, shelf: &mut MemShelf) -> Result<(), AllocError> {
    check_keep(rt, alloc, shelf, ("a", b"ab", true))?;
    check_keep(rt, alloc, shelf, ("a", b"abc", false))?;
    check_keep(rt, alloc, shelf, ("b", b"cd", false))
}

/// A fetch of at most so many bytes gives this text.
fn check_fetch<F: Shelf>(
    rt: &impl Abort,
    alloc: Global,
    shelf: &mut F,
    (name, most): (&str, u32),
    text: &[u8],
) -> Result<(), FetchError> {
    let found = shelf.fetch(alloc, name, most)?;
    assert_eq!(rt; found.as_slice(), text);
    Ok(())
}

#[test]
fn keeps_have_room(rt: HostRuntime) -> Result<(), Fail> {
    let failing = [FailingCall { call: 3, taken: 1 }];
    let shelf = MemShelf::new(rt.alloc(), &failing)?;
    let mut shelf = boxed(rt.alloc(), shelf)?;
    check_keeps(&rt, rt.alloc(), &mut shelf)?;
    check_fetch(&rt, rt.alloc(), shelf.as_mut(), ("a", 9), b"ab")?;
    check_fetch(&rt, rt.alloc(), shelf.as_mut(), ("b", 9), b"c")?;
    assert_eq!(rt; shelf.faults.count, 2);
    Ok(())
}

#[test]
fn calm_shelves_list_texts(rt: HostRuntime) -> Result<(), Fail> {
    let texts = [
        NamedText {
            name: "a",
            text: b"one",
        },
        NamedText {
            name: "b",
            text: b"two",
        },
        NamedText {
            name: "a",
            text: b"three",
        },
    ];
    let mut shelf = CalmShelf::new(&texts);
    check_fetch(&rt, rt.alloc(), &mut shelf, ("a", 2), b"on")?;
    check_fetch(&rt, rt.alloc(), &mut shelf, ("b", 2), b"tw")?;
    check_fetch(&rt, rt.alloc(), &mut shelf, ("c", 2), b"")?;
    assert_eq!(rt; shelf.keep("c", b"four"), Ok(()));
    assert_eq!(rt; CalmSink::new().put(b"five"), Ok(()));
    Ok(())
}

#[test]
fn real_files(rt: HostRuntime) -> Result<(), Fail> {
    let name = "kept_by_a_test_of_dae_io";
    let mut shelf = DirShelf::new(&rt);
    assert_eq!(rt; shelf.keep(name, b"some bytes"), Ok(()));
    check_fetch(&rt, rt.alloc(), &mut shelf, (name, 4), b"some")?;
    let mut sink = StdSink::new(fs::create(&rt, name)?);
    assert_eq!(rt; sink.put(b"other text"), Ok(()));
    check_fetch(&rt, rt.alloc(), &mut shelf, (name, 100), b"other text")?;
    fs::remove_file(&rt, name)?;
    assert!(rt; shelf.fetch(rt.alloc(), name, 100).is_err());
    assert_eq!(rt; shelf.faults.count, 1);
    Ok(())
}
