//! What a text of any kind is refused for, however it is cut.

ghost use Rattle.std.specs.Prelude.{◌≡◌, ◌≤◌};
ghost use Rattle.pd_image.specs.MemObjects.{mem_source_state};

use crate::objects::source_of;
use pd_grammar::TextCause;
use pd_image::MemSource;
use pd_texts::{ReadFault, TextFault, TextReader, TextState};
use std::alloc::Global;
use std::process::Abort;
use std::test::Fail;

/// The line that is refused, why, and the texts of which it is.
pub(crate) type Refused = (u64, TextCause, &'static [&'static str]);

/// Reads a text to its end, or to what is refused.
fn refusal_of<P: TextState>(reader: &mut TextReader<P>, source: &mut MemSource) -> Option<ReadFault>
where
    P::Line: Drop,
    requires { (mem_source_state source.old).access ≡ 1 }
{
    for _ in 0..10000u32 {
        match reader.next(source) {
            Ok(Some(_)) => {}
            Ok(None) => return None,
            Err(fault) => return Some(fault),
        }
    }
    None
}

/// What a text of which so many bytes come at a time is refused for.
fn refusal_in_pieces<P: TextState>(
    alloc: Global,
    text: &[u8],
    piece: usize,
) -> Result<Option<ReadFault>, Fail>
where
    P::Line: Drop,
    requires { 1 ≤ piece }
{
    let mut source = source_of(alloc, text, piece)?;
    let mut reader = TextReader::<P>::new(alloc)?;
    Ok(refusal_of(&mut reader, &mut *source))
}

/// Reads a text in pieces of 1, 7 and 4096 bytes: each time it is refused for this, or not at all.
fn expect_read<P: TextState>(
    rt: &impl Abort,
    alloc: Global,
    text: &[u8],
    wanted: Option<ReadFault>,
    shown: &str,
) -> Result<(), Fail>
where
    P::Line: Drop,
{
    let by_bytes = refusal_in_pieces::<P>(alloc, text, 1)?;
    let by_sevens = refusal_in_pieces::<P>(alloc, text, 7)?;
    let whole = refusal_in_pieces::<P>(alloc, text, 4096)?;
    assert!(rt; [by_bytes, by_sevens, whole] == [wanted; 3], "{shown}");
    Ok(())
}

/// Nothing of this text is refused, however it is cut.
pub(crate) fn expect_good<P: TextState>(
    rt: &impl Abort,
    alloc: Global,
    text: &[u8],
    shown: &str,
) -> Result<(), Fail>
where
    P::Line: Drop,
{
    expect_read::<P>(rt, alloc, text, None, shown)
}

/// This line of a text is refused for this cause, however the text is cut.
pub(crate) fn expect_refused<P: TextState>(
    rt: &impl Abort,
    alloc: Global,
    text: &[u8],
    line: u64,
    cause: TextCause,
    shown: &str,
) -> Result<(), Fail>
where
    P::Line: Drop,
{
    let wanted = Some(ReadFault::Text(TextFault { line, cause }));
    expect_read::<P>(rt, alloc, text, wanted, shown)
}

/// The same of what follows these first lines.
fn expect_refused_after<P: TextState>(
    rt: &impl Abort,
    alloc: Global,
    front: &str,
    row: Refused,
) -> Result<(), Fail>
where
    P::Line: Drop,
{
    let (line, cause, bodies) = row;
    for body in bodies {
        let mut text = Vec::from_slice(alloc, front.as_bytes())?;
        text.extend_from_slice(body.as_bytes())?;
        expect_refused::<P>(rt, alloc, text.as_slice(), line, cause, body)?;
    }
    Ok(())
}

/// The same of each row.
pub(crate) fn expect_each_refused<P: TextState>(
    rt: &impl Abort,
    alloc: Global,
    front: &str,
    rows: &[Refused],
) -> Result<(), Fail>
where
    P::Line: Drop,
{
    for row in rows {
        expect_refused_after::<P>(rt, alloc, front, *row)?;
    }
    Ok(())
}
