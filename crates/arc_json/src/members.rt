//! Objects and lists of what replies show.
ghost use Rattle.std.specs.Prelude.{◌≡◌, IfOk, OnOk, map};
ghost use Rattle.serde_json.specs.Data.{Data, array, number, object, put as with_member, string, unsigned};
ghost use Rattle.serde_json.specs.View.{items_of, members_view, view};
ghost use Rattle.arc_json.specs.Done.{only};

use arc_bytes::Memory;
use serde_json::{Map, Value, put};
use std::alloc::{AllocError, Global};

/// What a list in a reply shows.
pub(crate) trait Shown {
    // Its JSON value.
    ghost value: { Self → Data };

    /// Its JSON value.
    fn json(&self, alloc: Global) -> Result<Value, Memory>
        ensures { IfOk result (λ v. view v ≡ value self.now) };
}

/// The values of a list's items, in order.
pub(crate) fn values<T: Shown>(alloc: Global, items: &[T]) -> Result<Vec<Value>, Memory>
    ensures { IfOk result (λ values. map view values.items ≡ map T.value items.now) }
{
    let mut values = Vec::new(alloc);
    for item in items {
        let value = item.json(alloc)?;
        values.push(value)?;
    }
    Ok(values)
}

/// An object whose one member is a list of items.
pub(crate) fn list_json<T: Shown>(alloc: Global, name: &str, items: &[T]) -> Result<Value, Memory>
    ensures { IfOk result (λ v. view v ≡ only name.now (array (items_of (map T.value items.now)))) }
{
    let values = values(alloc, items)?;
    only_json(alloc, name, Value::Array(values))
}

/// An object with one member.
pub(crate) fn only_json(alloc: Global, name: &str, value: Value) -> Result<Value, Memory>
    ensures { IfOk result (λ v. view v ≡ only name.now (view value)) }
{
    let mut map = Map::new(alloc);
    put(&mut map, alloc, name, value)?;
    Ok(Value::Object(map))
}

/// The object that these members and a text make.
pub(crate) fn one_text(
    alloc: Global,
    map: Map<String, Value>,
    a: (&str, &str),
) -> Result<Value, Memory>
    ensures { IfOk result (λ v. view v ≡ object (with_member a.entry.0.now (string a.entry.1.now)
        (members_view map.entries))) }
{
    let mut map = map;
    put_text(&mut map, alloc, a.0, a.1)?;
    Ok(Value::Object(map))
}

/// The object that these members and two texts make.
pub(crate) fn two_texts(
    alloc: Global,
    map: Map<String, Value>,
    a: (&str, &str),
    b: (&str, &str),
) -> Result<Value, Memory>
    ensures { IfOk result (λ v. view v ≡ object (with_member b.entry.0.now (string b.entry.1.now)
        (with_member a.entry.0.now (string a.entry.1.now)
        (members_view map.entries)))) }
{
    let mut map = map;
    put_text(&mut map, alloc, a.0, a.1)?;
    one_text(alloc, map, b)
}

/// The object that these members and three texts make.
pub(crate) fn three_texts(
    alloc: Global,
    map: Map<String, Value>,
    a: (&str, &str),
    b: (&str, &str),
    c: (&str, &str),
) -> Result<Value, Memory>
    ensures { IfOk result (λ v. view v ≡ object (with_member c.entry.0.now (string c.entry.1.now)
        (with_member b.entry.0.now (string b.entry.1.now)
        (with_member a.entry.0.now (string a.entry.1.now)
        (members_view map.entries))))) }
{
    let mut map = map;
    put_text(&mut map, alloc, a.0, a.1)?;
    two_texts(alloc, map, b, c)
}

/// The object that these members and four texts make.
pub(crate) fn four_texts(
    alloc: Global,
    map: Map<String, Value>,
    a: (&str, &str),
    b: (&str, &str),
    c: (&str, &str),
    d: (&str, &str),
) -> Result<Value, Memory>
    ensures { IfOk result (λ v. view v ≡ object (with_member d.entry.0.now (string d.entry.1.now)
        (with_member c.entry.0.now (string c.entry.1.now)
        (with_member b.entry.0.now (string b.entry.1.now)
        (with_member a.entry.0.now (string a.entry.1.now)
        (members_view map.entries)))))) }
{
    let mut map = map;
    put_text(&mut map, alloc, a.0, a.1)?;
    three_texts(alloc, map, b, c, d)
}

/// The object that these members and five texts make.
pub(crate) fn five_texts(
    alloc: Global,
    map: Map<String, Value>,
    a: (&str, &str),
    b: (&str, &str),
    c: (&str, &str),
    d: (&str, &str),
    e: (&str, &str),
) -> Result<Value, Memory>
    ensures { IfOk result (λ v. view v ≡ object (with_member e.entry.0.now (string e.entry.1.now)
        (with_member d.entry.0.now (string d.entry.1.now)
        (with_member c.entry.0.now (string c.entry.1.now)
        (with_member b.entry.0.now (string b.entry.1.now)
        (with_member a.entry.0.now (string a.entry.1.now)
        (members_view map.entries))))))) }
{
    let mut map = map;
    put_text(&mut map, alloc, a.0, a.1)?;
    four_texts(alloc, map, b, c, d, e)
}

/// Puts a text at its name.
pub(crate) fn put_text(
    map: &mut Map<String, Value>,
    alloc: Global,
    name: &str,
    text: &str,
) -> Result<(), Memory>
    ensures { OnOk result (members_view map.new.entries
        ≡ with_member name.now (string text.now) (members_view map.old.entries)) }
{
    let text = String::from_str(alloc, text)?;
    put(map, alloc, name, Value::String(text))?;
    Ok(())
}

/// Puts a whole number at its name.
pub(crate) fn put_number(
    map: &mut Map<String, Value>,
    alloc: Global,
    name: &str,
    n: u64,
) -> Result<(), Memory>
    ensures { OnOk result (members_view map.new.entries
        ≡ with_member name.now (number (unsigned n)) (members_view map.old.entries)) }
{
    put(map, alloc, name, Value::from(n))?;
    Ok(())
}
