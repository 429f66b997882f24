//! A method with its code, as its instructions see it (JVMS 4.6, 4.7.3).
ghost use Rattle.std.specs.Prelude.{◌≡◌, ◌<◌, Bool, not, Some, Ok, length, map, option_map, IfSome};
ghost use Rattle.std.specs.Option.{option_and_then};
ghost use Rattle.names.specs.Descriptors.{MethodDescriptor};
ghost use Rattle.names.specs.Reading.{method_answer};
ghost use Rattle.names.specs.Types.{type_of};
ghost use Rattle.pool.specs.Lookups.{text_at};
ghost use Rattle.pool.specs.ConstantMeanings.{found};
ghost use Rattle.classfile.specs.Methods.{code_of};
ghost use Rattle.classfile.specs.MethodParts.{code_at, IsMethod, is_method_prop};
ghost use Rattle.classfile.specs.Views.{attribute_view, code_view, class_view};

use crate::attribute::Attribute;
use crate::class_file::ClassFile;
use crate::code::CodeAttr;
use crate::flags::{STATIC, has};
use crate::form::Formed;
use crate::member::Member;
use crate::member_form::is_instance_initializer;
use names::{FieldType, Text, result_type};
use pool::Pool;

/// A method of a class that has a Code attribute. It is the method of its number: what the class file says of that one
/// is what these parts say.
#[derive(Clone, Copy)]
pub struct CodeMethod<'c, 'a> {
    /// The class file that declares it.
    pub class: &'c ClassFile<'a>,
    /// Its number among the methods of the class, which count from 0.
    pub number: usize,
    /// Its Code attribute.
    pub code: &'c CodeAttr<'a>,
    /// Whether ACC_STATIC is set.
    pub is_static: bool,
    /// Whether it is an instance initialization method (JVMS 2.9.1).
    pub is_init: bool,
    /// The type of its result, `None` where it has none.
    pub result_type: Option<FieldType<'a>>,
    /// Whether `invokedynamic` and dynamic constants are judged (JVMS 4.4.10); otherwise they are refused.
    pub dynamic: bool,
    pub ghost is_method: { IsMethod (record { file = class_view class.now; dynamic = dynamic }) number
        (code_view code.now) is_static is_init (option_map type_of result_type) } by { is_method_prop (record { file = class_view class.now; dynamic = dynamic }) number
            (code_view code.now) is_static is_init (option_map type_of result_type) },
}

impl<'a> Member<'a> {
    ghost use Rattle.classfile.specs.Views.{member_view};

    /// The first Code attribute, if the member has one. Takes no memory.
    pub fn code<'m>(&'m self) -> Option<&'m CodeAttr<'a>>
        ensures { option_map (λ c. code_view c.now) result ≡ code_of (member_view self.now).attributes }
    {
        code_of(&self.attributes)
    }
}

impl<'c, 'a> CodeMethod<'c, 'a> {
    ghost use Rattle.classfile.specs.CodeMethods.{types_of};

    /// The text of its descriptor (JVMS 4.3.3). Takes no memory.
    pub fn descriptor(self) -> Text<'a>
        // It is read as the types of the method, with a receiver unless the method is static.
        ensures { method_answer (not self.entry.is_static) result.bytes.now ≡ Ok (types_of self.entry) }
    {
        let member = &self.class.methods[self.number];
        self.class.constant_pool.text(member.descriptor).unwrap()
    }
}

/// The first Code attribute.
fn code_of<'c, 'a>(attributes: &'c [Attribute<'a>]) -> Option<&'c CodeAttr<'a>>
    ensures { option_map (λ c. code_view c.now) result ≡ code_of (map attribute_view attributes.now) }
{
    for attribute in attributes {
        if let Attribute::Code { code, .. } = attribute {
            return Some(code);
        }
    }
    None
}

/// The result of the method descriptor at this index.
fn result_at<'a>(pool: &Pool<'a>, index: u16) -> Option<FieldType<'a>>
    ensures { (receiver : Bool) (m : MethodDescriptor)
        → option_and_then (λ text. found (method_answer receiver text)) (found (text_at pool.now index)) ≡ Some m
        → option_map type_of result ≡ m.result }
{
    match pool.text(index) {
        Ok(text) => result_type(text),
        Err(_) => None,
    }
}

impl<'c, 'a> Formed<'c, 'a> {
    ghost use Rattle.classfile.specs.CodeMethods.{judged_class, IsAt, TellsMethod};

    /// The method of this number, which counts from 0, if it has a Code attribute. Takes no memory.
    pub fn method(self, number: usize) -> Option<CodeMethod<'c, 'a>>
        requires { number < length self.class.now.methods.items }
        // None exactly where the method has no Code attribute.
        ensures code { option_map (λ m. code_view m.code.now) result
            ≡ code_at (class_view self.entry.class.now) number }
        // It is the method of that number of this class, and is judged as the class is.
        ensures here { IfSome result (λ m. IsAt self.entry number m) }
        // So what the class file says of the method is what is returned, whatever its code says.
        ensures told { TellsMethod (judged_class self.entry) number result }
    {
        let class = self.class();
        let member = &class.methods[number];
        let code = code_of(&member.attributes)?;
        let pool = &class.constant_pool;
        Some(CodeMethod {
            class,
            number,
            code,
            is_static: has(member.access_flags, STATIC),
            is_init: is_instance_initializer(pool, member),
            result_type: result_at(pool, member.descriptor),
            dynamic: self.dynamic,
        })
    }
}
