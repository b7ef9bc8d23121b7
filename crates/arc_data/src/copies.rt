//! Copies of lists of texts, and of what may be given.
ghost use Rattle.std.specs.Prelude.{◌≡◌, IfOk};

use crate::{List, Text};
use arc_bytes::Memory;
use std::alloc::Global;

/// The same texts again.
pub(crate) fn copy_texts(alloc: Global, texts: &List<Text>) -> Result<List<Text>, Memory>
    ensures { IfOk result (λ copy. copy ≡ texts.now) }
{
    Ok(List::of(copy_each(alloc, texts.as_slice())?))
}

fn copy_each(alloc: Global, texts: &[Text]) -> Result<Vec<Text>, Memory>
    ensures { IfOk result (λ copy. copy.items ≡ texts.now) }
{
    let mut copy = Vec::new(alloc);
    for text in texts {
        copy.push(text.copy(alloc)?)?;
    }
    Ok(copy)
}

/// The same text again, where one is given.
pub(crate) fn copy_text(alloc: Global, text: &Option<Text>) -> Result<Option<Text>, Memory>
    ensures { IfOk result (λ copy. copy ≡ text.now) }
{
    match text {
        Some(text) => Ok(Some(text.copy(alloc)?)),
        None => Ok(None),
    }
}

/// The same list again, where one is given.
pub(crate) fn copy_list<T: Copy>(
    alloc: Global,
    list: &Option<List<T>>,
) -> Result<Option<List<T>>, Memory>
    ensures { IfOk result (λ copy. copy ≡ list.now) }
{
    match list {
        Some(list) => Ok(Some(list.copy(alloc)?)),
        None => Ok(None),
    }
}

/// The same texts again, where some are given.
pub(crate) fn copy_given_texts(
    alloc: Global,
    texts: &Option<List<Text>>,
) -> Result<Option<List<Text>>, Memory>
    ensures { IfOk result (λ copy. copy ≡ texts.now) }
{
    match texts {
        Some(texts) => Ok(Some(copy_texts(alloc, texts)?)),
        None => Ok(None),
    }
}
