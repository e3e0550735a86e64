//! Which values have a type.
ghost use Rattle.std.specs.Prelude.{◌≡◌, ◌↔◌, IsTrue};
ghost use Rattle.abc_num.specs.declared.types.Ground.TheVariants as type;
ghost use Rattle.abc_value.specs.declared.value.Kind.TheVariants as kinds;
ghost use Rattle.abc_value.specs.Parts.{kind_of, parts_of, keys_of};
ghost use Rattle.abc_value.specs.Types.{has, each_listed, all_listed};

use abc_num::Ground;
use abc_value::{Kind, Value};

/// Whether the value has the type.
#[cycle(fits)]
pub fn fits_value(v: &Value, t: &Ground) -> bool
    ensures { IsTrue result ↔ has v.now t.now }
{
    match t {
        Ground::Number => is_number(v),
        Ground::Text => is_text(v),
        Ground::Compound(fields) => fits_compound(v, fields.as_slice()),
        Ground::List(element) => fits_list(v, element.get()),
        Ground::Table(key, associate) => fits_table(v, key.get(), associate.get()),
    }
}

fn is_number(v: &Value) -> bool
    ensures { IsTrue result ↔ has v.now type.Number }
{
    match v.kind() {
        Kind::Number => true,
        Kind::Text => false,
        Kind::Compound => false,
        Kind::Empty => false,
        Kind::List => false,
        Kind::Table => false,
    }
}

fn is_text(v: &Value) -> bool
    ensures { IsTrue result ↔ has v.now type.Text }
{
    match v.kind() {
        Kind::Number => false,
        Kind::Text => true,
        Kind::Compound => false,
        Kind::Empty => false,
        Kind::List => false,
        Kind::Table => false,
    }
}

#[cycle(fits)]
fn fits_list(v: &Value, t: &Ground) -> bool
    ensures { IsTrue result ↔ has v.now (type.List t.now) }
{
    match v.kind() {
        Kind::Number => false,
        Kind::Text => false,
        Kind::Compound => false,
        Kind::Empty => true,
        Kind::List => fits_parts(v, t),
        Kind::Table => false,
    }
}

/// Whether all fields, elements or associates have the type.
#[cycle(fits)]
fn fits_parts(v: &Value, t: &Ground) -> bool
    ensures { IsTrue result ↔ all_listed (parts_of v.now) t.now }
{
    for i in 0..v.len() {
        let Some(part) = v.part(i) else {
            return true;
        };
        if !fits_value(part, t) {
            return false;
        }
    }
    true
}

#[cycle(fits)]
fn fits_keys(v: &Value, t: &Ground) -> bool
    ensures { IsTrue result ↔ all_listed (keys_of v.now) t.now }
{
    for i in 0..v.len() {
        let Some(key) = v.key(i) else {
            return true;
        };
        if !fits_value(key, t) {
            return false;
        }
    }
    true
}

#[cycle(fits)]
fn fits_table(v: &Value, k: &Ground, a: &Ground) -> bool
    ensures { IsTrue result ↔ has v.now (type.Table k.now a.now) }
{
    match v.kind() {
        Kind::Number => false,
        Kind::Text => false,
        Kind::Compound => false,
        Kind::Empty => true,
        Kind::List => false,
        Kind::Table => {
            if !fits_keys(v, k) {
                return false;
            }
            fits_parts(v, a)
        }
    }
}

#[cycle(fits)]
fn fits_compound(v: &Value, fields: &[Ground]) -> bool
    ensures { IsTrue result ↔ has v.now (type.Compound fields.now) }
{
    match v.kind() {
        Kind::Number => false,
        Kind::Text => false,
        Kind::Compound => fits_each(v, fields),
        Kind::Empty => false,
        Kind::List => false,
        Kind::Table => false,
    }
}

#[cycle(fits)]
fn fits_each(v: &Value, fields: &[Ground]) -> bool
    ensures { IsTrue result ↔ each_listed (parts_of v.now) fields.now }
{
    for i in 0..fields.len() {
        let Some(part) = v.part(i) else {
            return false;
        };
        if !fits_value(part, &fields[i]) {
            return false;
        }
    }
    v.part(fields.len()).is_none()
}
