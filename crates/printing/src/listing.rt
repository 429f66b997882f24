//! The lines of a class file (JVMS 4.1).
ghost use Rattle.std.specs.Prelude.{◌≡◌, map};
ghost use Rattle.std.specs.List.{flat_map};
ghost use Rattle.classfile.specs.Methods.{code_of};
ghost use Rattle.classfile.specs.Views.{member_view, class_view};
ghost use Rattle.printing.specs.Writing.{Writes};
ghost use Rattle.printing.specs.Classes.{member_line, field_line, method_lines, lines_of_code, is_refused_method, class_line, super_text, super_line, interface_line, class_lines, has_refused};

use crate::class_attributes::ClassAttributes;
use crate::code::{Code, code_fault};
use crate::name::{ClassName, ConstantText, Hexadecimal};
use crate::print::{Lines, Number, Print, Then, Word, WriteFailed, put_lines};
use classfile::{ClassFile, Member};
use pool::Pool;
use std::io::Write;

/// The line of a field or a method, after the word for it.
#[derive(Clone, Copy)]
pub struct MemberLine<'p, 'a> {
    pub kind: &'static str,
    pub pool: &'p Pool<'a>,
    pub member: &'p Member<'a>,
}

impl<'p, 'a> Print for MemberLine<'p, 'a> {
    ghost text = { λ t. member_line t.kind.now t.pool.now (member_view t.member.now) };

    fn put<W: Write>(&self, out: &mut W) -> Result<(), WriteFailed> {
        let name = ConstantText {
            pool: self.pool,
            index: self.member.name,
        };
        let descriptor = ConstantText {
            pool: self.pool,
            index: self.member.descriptor,
        };
        let flags = Hexadecimal(self.member.access_flags);
        Then(
            Word(self.kind),
            Then(
                flags,
                Then(
                    Word(" "),
                    Then(name, Then(Word(" "), Then(descriptor, Word("\n")))),
                ),
            ),
        )
        .put(out)
    }
}

/// Fields, whose names are in this pool.
#[derive(Clone, Copy)]
struct Fields<'p, 'a> {
    pool: &'p Pool<'a>,
    members: &'p [Member<'a>],
}

impl<'p, 'a> Lines<Member<'a>> for Fields<'p, 'a> {
    ghost line = { λ t m. field_line t.pool.now (member_view m) };

    fn put_line<W: Write>(&self, item: &Member<'a>, out: &mut W) -> Result<(), WriteFailed> {
        MemberLine {
            kind: "field ",
            pool: self.pool,
            member: item,
        }
        .put(out)
    }
}

impl<'p, 'a> Print for Fields<'p, 'a> {
    ghost text = { λ t. flat_map (field_line t.pool.now) (map member_view t.members.now) };

    fn put<W: Write>(&self, out: &mut W) -> Result<(), WriteFailed> {
        put_lines(self, self.members, out)
    }
}

/// Methods, whose names are in this pool.
#[derive(Clone, Copy)]
struct Methods<'p, 'a> {
    pool: &'p Pool<'a>,
    members: &'p [Member<'a>],
}

/// The lines of the code that a method may have.
#[derive(Clone, Copy)]
struct CodeOf<'p, 'a> {
    pool: &'p Pool<'a>,
    method: &'p Member<'a>,
}

impl<'p, 'a> Print for CodeOf<'p, 'a> {
    ghost text = { λ t. lines_of_code t.pool.now (code_of (member_view t.method.now).attributes) };

    fn put<W: Write>(&self, out: &mut W) -> Result<(), WriteFailed> {
        match self.method.code() {
            None => Word("").put(out),
            Some(body) => Code {
                pool: self.pool,
                body,
            }
            .put(out),
        }
    }
}

impl<'p, 'a> Lines<Member<'a>> for Methods<'p, 'a> {
    ghost line = { λ t m. method_lines t.pool.now (member_view m) };

    fn put_line<W: Write>(&self, item: &Member<'a>, out: &mut W) -> Result<(), WriteFailed> {
        let line = MemberLine {
            kind: "method ",
            pool: self.pool,
            member: item,
        };
        let code = CodeOf {
            pool: self.pool,
            method: item,
        };
        Then(line, code).put(out)
    }
}

impl<'p, 'a> Print for Methods<'p, 'a> {
    ghost text = { λ t. flat_map (method_lines t.pool.now) (map member_view t.members.now) };

    fn put<W: Write>(&self, out: &mut W) -> Result<(), WriteFailed> {
        put_lines(self, self.members, out)
    }
}

/// Interfaces, whose names are in this pool.
#[derive(Clone, Copy)]
struct Interfaces<'p, 'a> {
    pool: &'p Pool<'a>,
    indices: &'p [u16],
}

impl<'p, 'a> Lines<u16> for Interfaces<'p, 'a> {
    ghost line = { λ t index. interface_line t.pool.now index };

    fn put_line<W: Write>(&self, item: &u16, out: &mut W) -> Result<(), WriteFailed> {
        let name = ClassName {
            pool: self.pool,
            index: *item,
        };
        Then(Word("interface "), Then(name, Word("\n"))).put(out)
    }
}

impl<'p, 'a> Print for Interfaces<'p, 'a> {
    ghost text = { λ t. flat_map (interface_line t.pool.now) (map (λ n. n) t.indices.now) };

    fn put<W: Write>(&self, out: &mut W) -> Result<(), WriteFailed> {
        put_lines(self, self.indices, out)
    }
}

/// The lines of a class file: the class with its version and flags, its superclass, interfaces, the components of a
/// record and the classes that a sealed class permits, fields and methods, and after each method that has code the
/// lines of this code.
#[derive(Clone, Copy)]
pub struct Listing<'c, 'a>(pub &'c ClassFile<'a>);

/// The lines of the class itself.
#[derive(Clone, Copy)]
pub struct Head<'c, 'a>(pub &'c ClassFile<'a>);

impl<'c, 'a> Print for Head<'c, 'a> {
    ghost text = { λ t. class_line (class_view t.0.now) };

    fn put<W: Write>(&self, out: &mut W) -> Result<(), WriteFailed> {
        let class = self.0;
        let name = ClassName {
            pool: &class.constant_pool,
            index: class.this_class,
        };
        let flags = Then(
            Word(" flags "),
            Then(Hexadecimal(class.access_flags), Word("\n")),
        );
        let version = Then(
            Word(" major "),
            Then(
                Number(class.major_version),
                Then(Word(" minor "), Then(Number(class.minor_version), flags)),
            ),
        );
        Then(Word("class "), Then(name, version)).put(out)
    }
}

/// The name of the superclass, if there is one.
#[derive(Clone, Copy)]
struct Superclass<'c, 'a>(ClassName<'c, 'a>);

impl<'c, 'a> Print for Superclass<'c, 'a> {
    ghost text = { λ t. super_text t.0.pool.now t.0.index };

    fn put<W: Write>(&self, out: &mut W) -> Result<(), WriteFailed> {
        if self.0.index == 0 {
            Word("none").put(out)
        } else {
            self.0.put(out)
        }
    }
}

/// The line of the superclass.
#[derive(Clone, Copy)]
pub struct Above<'c, 'a>(pub &'c ClassFile<'a>);

impl<'c, 'a> Print for Above<'c, 'a> {
    ghost text = { λ t. super_line (class_view t.0.now) };

    fn put<W: Write>(&self, out: &mut W) -> Result<(), WriteFailed> {
        let name = Superclass(ClassName {
            pool: &self.0.constant_pool,
            index: self.0.super_class,
        });
        Then(Word("super "), Then(name, Word("\n"))).put(out)
    }
}

impl<'c, 'a> Print for Listing<'c, 'a> {
    ghost text = { λ t. class_lines (class_view t.0.now) };

    fn put<W: Write>(&self, out: &mut W) -> Result<(), WriteFailed> {
        let class = self.0;
        let pool = &class.constant_pool;
        let interfaces = Interfaces {
            pool,
            indices: &class.interfaces,
        };
        let fields = Fields {
            pool,
            members: &class.fields,
        };
        let methods = Methods {
            pool,
            members: &class.methods,
        };
        let attributes = ClassAttributes {
            pool,
            attributes: &class.attributes,
        };
        Then(
            Head(class),
            Then(
                Above(class),
                Then(interfaces, Then(attributes, Then(fields, methods))),
            ),
        )
        .put(out)
    }
}

impl<'c, 'a> Listing<'c, 'a> {
    /// Whether the code of a method is refused.
    pub fn is_refused(&self) -> bool
        ensures { result ≡ has_refused (class_view self.now.0.now) }
    {
        for method in &self.0.methods {
            if is_refused(method) {
                return true;
            }
        }
        false
    }
}

/// Whether a method has code that is refused.
fn is_refused(method: &Member<'_>) -> bool
    ensures { result ≡ is_refused_method (member_view method.now) }
{
    match method.code() {
        None => false,
        Some(body) => code_fault(body.code).is_some(),
    }
}
