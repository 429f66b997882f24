//! The bodies of debug tables of a Code attribute that has at most one of each name (JVMS 4.7.12 to 4.7.14).
ghost use Rattle.std.specs.Prelude.{◌≡◌, ◌++◌, true, map, IfSome};
ghost use Rattle.std.specs.Str.{bytes_eq};
ghost use Rattle.classfile.specs.private.TableBodies.{bodies, body_if, Adds, Meets, AreOnly};
ghost use Rattle.classfile.specs.Views.{nested_view};

use crate::location::is_text;
use crate::nested::NestedAttribute;
use pool::Pool;

/// The bodies of the debug tables that stand there.
#[derive(Clone, Copy)]
pub struct TableBodies<'a> {
    /// The body of the LineNumberTable.
    pub lines: Option<&'a [u8]>,
    /// The body of the LocalVariableTable.
    pub variables: Option<&'a [u8]>,
    /// The body of the LocalVariableTypeTable.
    pub types: Option<&'a [u8]>,
}

/// Puts a body, if it was found, to the others of its name; `false` where there is one.
fn put<'a>(others: &mut Option<&'a [u8]>, found: bool, body: &'a [u8]) -> bool
    ensures { result ≡ true → bodies others.new ≡ bodies others.old ++ body_if found body.entry.now }
{
    if found {
        if others.is_some() {
            return false;
        }
        *others = Some(body);
    }
    true
}

impl<'a> TableBodies<'a> {
    /// Puts the body of an attribute of this name to the others; `false` where there is one of its name.
    fn add(&mut self, name: &[u8], body: &'a [u8]) -> bool
        ensures { result ≡ true → Adds name.now body.entry.now self.old self.new }
    {
        put(&mut self.lines, is_text(name, b"LineNumberTable"), body)
            && put(
                &mut self.variables,
                is_text(name, b"LocalVariableTable"),
                body,
            )
            && put(
                &mut self.types,
                is_text(name, b"LocalVariableTypeTable"),
                body,
            )
    }

    /// Puts the body of an attribute to the others, if it is a debug table; `false` where there is one of its name.
    fn meet(&mut self, pool: &Pool<'_>, attribute: &NestedAttribute<'a>) -> bool
        ensures { result ≡ true → Meets pool.now (nested_view attribute.now) self.old self.new }
    {
        match attribute {
            NestedAttribute::StackMapTable { .. } => true,
            NestedAttribute::Numbers { numbers, .. } => {
                self.add(numbers.layout.name.as_bytes(), numbers.body)
            }
            NestedAttribute::Raw { name, body } => match pool.text(*name) {
                Ok(text) => self.add(text.bytes(), body),
                Err(_) => true,
            },
        }
    }
}

/// The bodies of the debug tables among the attributes, if there is at most one of each name.
pub fn only_bodies<'a>(
    pool: &Pool<'_>,
    attributes: &[NestedAttribute<'a>],
) -> Option<TableBodies<'a>>
    ensures { IfSome result (AreOnly pool.now (map nested_view attributes.now)) }
{
    let mut bodies = TableBodies {
        lines: None,
        variables: None,
        types: None,
    };
    for attribute in attributes {
        if !bodies.meet(pool, attribute) {
            return None;
        }
    }
    Some(bodies)
}
