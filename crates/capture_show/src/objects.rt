// The object of a line.
ghost use Rattle.std.specs.Prelude.{◌≡◌, IfOk};
ghost use Rattle.serde_json.specs.Data.{object};
ghost use Rattle.serde_json.specs.View.{view};
ghost use Rattle.serde_json.specs.Written.{compact_text};
ghost use Rattle.capture_show.specs.Texts.{data_of, object_of};
ghost use Rattle.capture_show.specs.Lines.{word_text};
ghost use Rattle.serde_json.specs.Data.{string};

use crate::line::Shown;
use crate::names::{kind_text, name_text};
use crate::values::{Field, Word};
use crate::words::put_word;
use fh_base::Line;
use serde_json::{Map, Value, put};
use std::alloc::{AllocError, Global};
use std::str::from_utf8;

// A word as a string.
fn word_value(alloc: Global, word: Word) -> Result<Value, AllocError>
    ensures { IfOk result (λ v. view v ≡ string (word_text word)) }
{
    let mut line = Line::new();
    put_word(&mut line, word);
    match from_utf8(line.as_slice()) {
        Ok(text) => Value::try_from_str(alloc, text),
        Err(_) => unreachable!(),
    }
}

// What a member says.
fn value_of(alloc: Global, field: Field) -> Result<Value, AllocError>
    ensures { IfOk result (λ v. view v ≡ data_of field) }
{
    match field {
        Field::Count(n) => Ok(Value::from(n)),
        Field::Signed(n) => Ok(Value::from(n)),
        Field::Word(word) => word_value(alloc, word),
    }
}

// The object of a line, with its members in the order of their names.
fn object_of(alloc: Global, shown: &Shown) -> Result<Value, AllocError>
    ensures { IfOk result (λ v. view v ≡ object_of shown.now) }
{
    let mut map = Map::new(alloc);
    let first = Value::try_from_str(alloc, kind_text(shown.kind()))?;
    put(&mut map, alloc, "line", first)?;
    for m in shown.members() {
        let value = value_of(alloc, m.field)?;
        put(&mut map, alloc, name_text(m.name), value)?;
    }
    Ok(Value::Object(map))
}

/// The compact text of a line's object.
pub fn object_text(alloc: Global, shown: &Shown) -> Result<Vec<u8>, AllocError>
    ensures { IfOk result (λ t. t.items ≡ compact_text (object_of shown.now)) }
{
    let object = object_of(alloc, shown)?;
    object.to_vec(alloc)
}
