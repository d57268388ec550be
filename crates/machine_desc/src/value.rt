//! The values of keys, each of the kind and within the range that is asked for.
ghost use Rattle.std.specs.Prelude.{◌≡◌, ◌≤◌, IfOk, string_bytes, map, length, vec_len};
ghost use Rattle.toml.specs.Data.{as_str, as_table};
ghost use Rattle.toml.specs.View.{view, table_view};
ghost use Rattle.machine_desc.specs.Views.{views};
ghost use Rattle.machine_desc.specs.Paths.{path_of};
ghost use Rattle.machine_desc.specs.Reads.{Gives, each};
ghost use Rattle.machine_desc.specs.Values.{number_in, text_in, array_in, nodes_in, node_in, tables_in, of_kind};

use crate::{Amount, DescFault, Key};
use base_words::{NodeId, NodeList, Sequence};
use toml::{Table, Value};

/// An integer from `low` to `high`.
pub fn number_in(key: Key, value: &Value, low: u32, high: u32) -> Result<u32, DescFault>
    ensures number { Gives (λ n. n) result
        (number_in (path_of key.entry) low high (view value.now)) }
    ensures least { IfOk result (λ n. low ≤ n) }
    ensures most { IfOk result (λ n. n ≤ high) }
{
    let Some(number) = value.as_integer() else {
        return Err(key.kind());
    };
    if number < i64::from(low) || number > i64::from(high) {
        return Err(key.range(Amount::Number(number)));
    }
    Ok(number as u32)
}

/// A text of 1 to `most` bytes.
pub fn text_in(key: Key, value: &Value, most: usize) -> Result<String, DescFault>
    ensures { Gives (λ text. string_bytes text) result
        (text_in (path_of key.entry) most (view value.now)) }
{
    let Some(text) = value.as_str() else {
        return Err(key.kind());
    };
    if text.is_empty() || text.len() > most {
        return Err(key.range(Amount::Length(text.len())));
    }
    Ok(String::from_str(key.alloc, text)?)
}

/// A text of any length.
pub fn word_in<'v>(key: Key, value: &'v Value) -> Result<&'v str, DescFault>
    ensures { Gives (λ word. word.now) result
        (of_kind (path_of key.entry) (as_str (view value.now))) }
{
    match value.as_str() {
        Some(word) => Ok(word),
        None => Err(key.kind()),
    }
}

/// An array of `low` to `high` values.
#[tactic(auto, using(crate::proofs::Arrays::array_items))]
pub fn array_in<'v>(
    key: Key,
    value: &'v Value,
    low: usize,
    high: usize,
) -> Result<&'v [Value], DescFault>
    ensures array { Gives (λ array. map view array.now) result
        (array_in (path_of key.entry) low high (view value.now)) }
    ensures within { IfOk result (λ array. length array.now ≤ high) }
{
    let Some(array) = value.as_array() else {
        return Err(key.kind());
    };
    if array.len() < low || array.len() > high {
        return Err(key.range(Amount::Length(array.len())));
    }
    Ok(array.as_slice())
}

/// A table.
pub fn table_in<'v>(key: Key, value: &'v Value) -> Result<&'v Table, DescFault>
    ensures { Gives (λ table. table_view table.now) result
        (of_kind (path_of key.entry) (as_table (view value.now))) }
{
    match value.as_table() {
        Some(table) => Ok(table),
        None => Err(key.kind()),
    }
}

/// A list of 1 to `most` node numbers 0 to 7.
pub fn nodes_in(key: Key, value: &Value, most: usize) -> Result<NodeList, DescFault>
    ensures { Gives (λ nodes. nodes) result (nodes_in (path_of key.entry) most (view value.now)) }
{
    let array = array_in(key, value, 1, most)?;
    nodes_of(key, array)
}

/// A node number 0 to 7.
fn node_in(key: Key, value: &Value) -> Result<NodeId, DescFault>
    ensures { Gives (λ node. node) result (node_in (path_of key.entry) (view value.now)) }
{
    let number = number_in(key, value, 0, 7)?;
    Ok(NodeId(number as u8))
}

/// Each value a node number 0 to 7.
#[tactic(auto, using(crate::proofs::Each::loops))]
fn nodes_of(key: Key, array: &[Value]) -> Result<NodeList, DescFault>
    ensures { Gives (λ nodes. nodes) result
        (each (λ i d. node_in (path_of key.entry) d) 0 (map view array.now)) }
{
    let mut nodes = Sequence::new(key.alloc);
    for value in array {
        nodes.push(node_in(key, value)?)?;
    }
    Ok(nodes)
}

/// An array of `low` to `high` tables.
pub fn tables_in<'v>(
    key: Key,
    value: &'v Value,
    low: usize,
    high: usize,
) -> Result<Vec<&'v Table>, DescFault>
    ensures tables { Gives (λ tables. views tables.items) result
        (tables_in (path_of key.entry) low high (view value.now)) }
    ensures within { IfOk result (λ tables. vec_len tables ≤ high) }
{
    let array = array_in(key, value, low, high)?;
    tables_of(key, array)
}

/// Each value a table.
#[tactic(auto, using(crate::proofs::Each::loops))]
fn tables_of<'v>(key: Key, array: &'v [Value]) -> Result<Vec<&'v Table>, DescFault>
    ensures tables { Gives (λ tables. views tables.items) result
        (each (λ i d. of_kind (path_of key.entry) (as_table d)) 0 (map view array.now)) }
    ensures as_many { IfOk result (λ tables. vec_len tables ≡ length array.now) }
{
    let mut tables = Vec::new(key.alloc);
    for value in array {
        tables.push(table_in(key, value)?)?;
    }
    Ok(tables)
}
