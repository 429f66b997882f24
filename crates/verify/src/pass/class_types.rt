//! The numbers that the types of a class get before the code of its methods is judged.
ghost use Rattle.std.specs.Prelude.{◌≡◌, ◌++◌, None, map, option_to_list, slice_index_or, IfOk, OnOk};
ghost use Rattle.std.specs.Option.{option_and_then};
ghost use Rattle.classfile.specs.CodeMethods.{types_of};
ghost use Rattle.classfile.specs.Methods.{receiver_of};
ghost use Rattle.classfile.specs.Views.{class_view};
ghost use Rattle.frames.specs.Slots.{descriptor_type};
ghost use Rattle.rules.specs.Bodies.{method_view};
ghost use Rattle.type_numbers.specs.Constants.{IsTable, arguments_of, descriptors_of};
ghost use Rattle.type_numbers.specs.Numbers.{Numbering, Extends, IsNumberOf};
ghost use Rattle.type_numbers.specs.MethodNumbers.{AreDescriptors, AreNumbers};
ghost use Rattle.numbered_rules.specs.RuleNumbers.{AreRuleNumbers};
ghost use Rattle.verify.specs.InitialFrames.{initial_types};
ghost use Rattle.verify.specs.private.pass.ClassTypes.{AreClassTypes, AreMethodTypes, receiver_type};

use crate::initial::begins_uninitialized;
use crate::pass::class_numbers::ClassNumbers;
use classfile::{ClassFile, CodeMethod};
use hierarchy::Classes;
use method_frames::OWN_OBJECT;
use numbered_rules::RuleNumbers;
use rules::{class_name, superclass_name};
use std::alloc::{AllocError, Global};
use type_numbers::{ConstantTable, MethodNumbers, TypeNumbers};

/// The numbers of the types of a class: of its constants, of the descriptors of its methods, and of all that the rules
/// of their instructions ask for. Each text is read once, however many constants and methods lead to it.
#[derive(Drop)]
pub struct ClassTypes {
    numbers: ClassNumbers,
    table: ConstantTable,
    /// By the numbers of the methods; none where a descriptor is none.
    methods: Vec<Option<MethodNumbers>>,
}

/// The types of the descriptor of each method.
fn method_types<'a, C: Classes>(
    alloc: Global,
    class: &ClassFile<'a>,
    table: &mut ConstantTable,
    types: &mut TypeNumbers<'_, 'a, C>,
) -> Result<Vec<Option<MethodNumbers>>, AllocError>
    requires described { IsTable types.old class.now.constant_pool table.old }
    requires descriptors { AreDescriptors types.old class.now.constant_pool (descriptors_of table.old) }
    ensures kept { Extends types.old types.new }
    ensures described { OnOk result (IsTable types.new class.now.constant_pool table.new) }
    ensures given { IfOk result (λ v. AreMethodTypes types.new (arguments_of table.new) (class_view class.now)
        v.items) }
{
    let mut methods = Vec::with_capacity(alloc, class.methods.len())?;
    for member in &class.methods {
        let named = table.method_types(&class.constant_pool, member.descriptor, types)?;
        methods.push(named)?;
    }
    Ok(methods)
}

/// Puts a number after others, if there is one.
fn put(number: Option<u32>, numbers: &mut Vec<u32>) -> Result<(), AllocError>
    ensures { OnOk result (numbers.new.items ≡ numbers.old.items ++ option_to_list number) }
{
    if let Some(number) = number {
        numbers.push(number)?;
    }
    Ok(())
}

impl ClassTypes {
    /// The numbers for a class. The only refusal is 1, where memory runs out.
    #[inline(never)]
    pub fn new<'a, C: Classes>(
        alloc: Global,
        class: &ClassFile<'a>,
        types: &mut TypeNumbers<'_, 'a, C>,
    ) -> Result<ClassTypes, AllocError>
        ensures same { types.new.classes ≡ types.old.classes }
        ensures kept { Extends types.old types.new }
        ensures given { IfOk result (AreClassTypes types.new (class_view class.now)) }
    {
        let numbers = ClassNumbers::new(class_name(class), superclass_name(class), types)?;
        let mut table = ConstantTable::new(alloc, &class.constant_pool, types)?;
        let methods = method_types(alloc, class, &mut table, types)?;
        Ok(ClassTypes {
            numbers,
            table,
            methods,
        })
    }

    /// The types of the descriptor of a method of this number.
    fn named(&self, number: usize) -> Option<MethodNumbers>
        ensures { result ≡ slice_index_or self.now.methods.items number None }
    {
        if number < self.methods.len() {
            self.methods[number]
        } else {
            None
        }
    }

    /// The type of the result of a method of this number, if it has one.
    fn returned(&self, number: usize) -> Option<u32>
        ensures { result ≡ option_and_then (λ x. x.result) (slice_index_or self.now.methods.items number None) }
    {
        match self.named(number) {
            Some(named) => named.result,
            None => None,
        }
    }

    /// The type of the receiver when a method begins (JVMS 4.10.1.6); a static method has none. The receiver of an
    /// `<init>` is not initialized, unless it is Object's `<init>`.
    fn receiver(&self, method: &CodeMethod<'_, '_>) -> Option<u32>
        ensures { (s : Numbering) → AreClassTypes s (class_view method.now.class.now) self.now
            → let m = method_view method.now in IsNumberOf s result (receiver_type m (receiver_of m)) }
    {
        if method.is_static {
            return None;
        }
        if begins_uninitialized(method) {
            return Some(OWN_OBJECT);
        }
        Some(self.numbers.class)
    }

    /// The types of the parameters of a method.
    fn parameters(&self, method: &CodeMethod<'_, '_>) -> &[u32]
        requires { (s : Numbering) × AreClassTypes s (class_view method.now.class.now) self.now }
        ensures { (s : Numbering) → AreClassTypes s (class_view method.now.class.now) self.now
            → AreNumbers s result.now (map descriptor_type (types_of method.now).params) }
    {
        match self.named(method.number) {
            Some(named) => self.table.arguments(named),
            None => &[],
        }
    }

    /// The types with which a method begins (JVMS 4.10.1.6): those of its receiver, if it has one, and of its
    /// parameters. The only refusal is 1, where memory runs out.
    pub fn initial(
        &self,
        alloc: Global,
        method: &CodeMethod<'_, '_>,
    ) -> Result<Vec<u32>, AllocError>
        requires { (s : Numbering) × AreClassTypes s (class_view method.now.class.now) self.now }
        ensures { (s : Numbering) → AreClassTypes s (class_view method.now.class.now) self.now
            → IfOk result (λ v. AreNumbers s v.items (initial_types (method_view method.now))) }
    {
        let mut initial = Vec::new(alloc);
        put(self.receiver(method), &mut initial)?;
        initial.extend_from_slice(self.parameters(method))?;
        Ok(initial)
    }

    /// The types that the rules of a method's instructions ask for.
    pub fn rule_numbers(&self, method: &CodeMethod<'_, '_>) -> RuleNumbers<'_>
        ensures { (s : Numbering) → AreClassTypes s (class_view method.now.class.now) self.now
            → AreRuleNumbers s (method_view method.now) result }
    {
        RuleNumbers {
            table: &self.table,
            object: self.numbers.object,
            objects: self.numbers.objects,
            throwable: self.numbers.throwable,
            class: self.numbers.class,
            superclass: self.numbers.superclass,
            returned: self.returned(method.number),
        }
    }
}
