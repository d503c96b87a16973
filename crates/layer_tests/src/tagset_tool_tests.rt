//! Rows of commands, over files in memory.

use jats_chars::Text;
use jats_io::{MemorySink, MemoryStore, SoundSink, SoundStore};
use std::alloc::Global;
use std::process::Abort;
use std::test::Fail;
use tagset_tool::{run, run_sound};

const A_EMPTY: &[u8; 18] = b"<!ELEMENT a EMPTY>";

const SUBSET: &[u8; 87] =
    b"subset\ndocuments some\ncertificate 1 a 0\nelement a 1 inf\nstate 0 0 inf\npair 0 0 inf\nend\n";

const LEAST: &[u8; 160] =
    b"not subset\nleast 2\nbroken r content\ncertificate 1 r 2\nelement r 1 2\nstate 0 0 inf\npair 0 0 1\nelement a 1 inf\nstate 0 0 inf\npair 0 0 inf\nend\narticle\n<r><a/></r>\n";

fn words(alloc: Global, line: &str) -> Result<Vec<Text>, Fail> {
    let mut words = Vec::new(alloc);
    for word in line.split(' ') {
        words.push(Text::from_str(alloc, word)?)?;
    }
    Ok(words)
}

fn put(alloc: Global, store: &mut MemoryStore, name: &str, text: &[u8]) -> Result<(), Fail> {
    store.put(Text::from_str(alloc, name)?, Vec::from_slice(alloc, text)?)?;
    Ok(())
}

fn store(alloc: Global, m: &[u8], n: &[u8]) -> Result<MemoryStore, Fail> {
    let mut store = MemoryStore::new(alloc);
    put(alloc, &mut store, "m.dtd", m)?;
    put(alloc, &mut store, "n.dtd", n)?;
    Ok(store)
}

/// What the words give over these files.
fn answers<R: Abort>(
    rt: &R,
    alloc: Global,
    store: &mut MemoryStore,
    line: &str,
    status: u8,
    out: &[u8],
) -> Result<(), Fail> {
    let mut sink = MemorySink::new(alloc, 4096, 10)?;
    let words = words(alloc, line)?;
    let answered = run(alloc, words.as_slice(), store, &mut sink);
    assert_eq!(rt; answered, status);
    assert_eq!(rt; sink.bytes(), out);
    Ok(())
}

#[test]
fn a_least_separating_article(rt: HostRuntime) -> Result<(), Fail> {
    let alloc = rt.alloc();
    let listed = b"<!ELEMENT r (#PCDATA|a)*><!ELEMENT a EMPTY>";
    let plain = b"<!ELEMENT r (#PCDATA)>\n<!ELEMENT a EMPTY >";
    let mut files = store(alloc, listed, plain)?;
    answers(
        &rt,
        alloc,
        &mut files,
        "compare - m.dtd - n.dtd r 2",
        1,
        LEAST,
    )
}

#[test]
fn failing_devices(rt: HostRuntime) -> Result<(), Fail> {
    let alloc = rt.alloc();
    let words = words(alloc, "compare - m.dtd - n.dtd a 0")?;
    for call in 1..10u64 {
        let mut files = store(alloc, A_EMPTY, A_EMPTY)?;
        let mut sink = MemorySink::new(alloc, 4096, 10)?;
        sink.fail_call(call)?;
        assert_eq!(rt; run(alloc, words.as_slice(), &mut files, &mut sink), 5);
        assert_eq!(rt; sink.bytes(), &SUBSET[..10 * (call as usize - 1)]);
        assert_eq!(rt; sink.calls(), call);
    }
    for call in 1..3u64 {
        let mut files = store(alloc, A_EMPTY, A_EMPTY)?;
        files.fail_call(call)?;
        let line = "compare - m.dtd - n.dtd a 0";
        answers(&rt, alloc, &mut files, line, 4, b"")?;
        assert_eq!(rt; files.calls(), call);
    }
    Ok(())
}

#[test]
fn sound_devices(rt: HostRuntime) -> Result<(), Fail> {
    let alloc = rt.alloc();
    let words = words(alloc, "compare - m.dtd - m.dtd a 0")?;
    let mut files = SoundStore::new(alloc);
    files.put(
        Text::from_str(alloc, "m.dtd")?,
        Vec::from_slice(alloc, A_EMPTY)?,
    )?;
    let mut sink = SoundSink::new(alloc, 87)?;
    assert_eq!(rt;
        run_sound(alloc, words.as_slice(), &mut files, &mut sink),
        0
    );
    assert_eq!(rt; sink.bytes(), SUBSET.as_slice());
    let mut sink = SoundSink::new(alloc, 86)?;
    assert_eq!(rt;
        run_sound(alloc, words.as_slice(), &mut files, &mut sink),
        5
    );
    assert_eq!(rt; sink.bytes(), &SUBSET[..86]);
    Ok(())
}
