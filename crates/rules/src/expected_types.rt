//! The expected types of all that an instruction takes.
ghost use Rattle.std.specs.Prelude.{◌≡◌, [], ◌∷◌, map, option_map, option_to_list, IfOk};
ghost use Rattle.names.specs.Types.{method_of};
ghost use Rattle.names.specs.References.{reference_view};
ghost use Rattle.pool.specs.ConstantViews.{field_constant_view, method_constant_view, call_site_view};
ghost use Rattle.insn.specs.Operators.{numeric_row, stack_forms};
ghost use Rattle.insn.specs.OperandStacks.{units_taken};
ghost use Rattle.insn.specs.declared.kinds.Kind.TheVariants.{Int};
ghost use Rattle.rules.specs.TypingRules.{arguments_on, number, numbers};
ghost use Rattle.rules.specs.Table.{return_number, return_reference};
ghost use Rattle.rules.specs.Constants.{put_static, get_field, put_field, invoke_static, invoke_virtual, invoke_interface, invoke_special, constructor_call, special_call, dynamic_call, invoke_dynamic, new_array, new_reference_array, new_multi_array, check_cast};
ghost use Rattle.rules.specs.Bodies.{method_view};
ghost use Rattle.rules.specs.Naming.{is_own};
ghost use Rattle.rules.specs.Views.{expected_view};
ghost use Rattle.rules.specs.ExpectedTypes.{expected_types, of_local, of_nothing, of_operands, of_units, types_view};

use crate::calls::{
    is_init, may_be_called, may_call_special, may_construct_by, may_invoke_interface,
    may_invoke_static, may_invoke_virtual,
};
use crate::declaring_class::own_class;
use crate::expected::{
    ExpectedType, arguments_on, expected_of, object_array, sizes, target_of, throwable,
};
use crate::naming::Named;
use crate::results::{number_of_result, reference_of_result};
use crate::stacks::units_taken;
use classfile::CodeMethod;
use insn::{Act, Kind, NumericOperator, StackOperator, computed_as};
use names::{MethodType, OBJECT, Primitive, RefType};
use pool::{CallSite, FieldConstant, MethodConstant};
use std::alloc::{AllocError, Global};

/// The expected type of a local variable.
#[derive(Clone, Copy, Debug)]
pub struct ExpectedLocal<'a> {
    /// Its index.
    pub place: u16,
    /// How many local variables it takes.
    pub width: usize,
    /// The type that is expected of it.
    pub expected: ExpectedType<'a>,
}

/// The expected types of all that an instruction takes by its rule (JVMS 4.10.1.9).
#[derive(Debug, Drop)]
pub struct ExpectedTypes<'a> {
    /// The types of its operands, that of the top of the stack first.
    pub operands: Vec<ExpectedType<'a>>,
    /// The class whose constructor is called on the object beneath them, if one is.
    pub receiver: Option<&'a [u8]>,
    /// The local variable that it reads, if it reads one.
    pub local: Option<ExpectedLocal<'a>>,
    /// How many units of the stack it moves, whatever their types.
    pub units: usize,
}

/// Nothing is taken.
fn of_nothing<'a>(alloc: Global) -> ExpectedTypes<'a>
    ensures { types_view result ≡ of_nothing }
{
    ExpectedTypes {
        operands: Vec::new(alloc),
        receiver: None,
        local: None,
        units: 0,
    }
}

/// Operands of these types are taken, the top of the stack first.
fn of_operands<'a>(operands: Vec<ExpectedType<'a>>) -> ExpectedTypes<'a>
    ensures { types_view result ≡ of_operands (map expected_view operands.entry.items) }
{
    ExpectedTypes {
        operands,
        receiver: None,
        local: None,
        units: 0,
    }
}

/// A copy of these types.
fn takes<'a>(alloc: Global, types: &[ExpectedType<'a>]) -> Result<ExpectedTypes<'a>, AllocError>
    ensures { IfOk result (λ x. types_view x ≡ of_operands (map expected_view types.now)) }
{
    Ok(of_operands(Vec::from_slice(alloc, types)?))
}

/// A local variable is read.
fn reads<'a>(
    alloc: Global,
    place: u16,
    width: usize,
    expected: ExpectedType<'a>,
) -> ExpectedTypes<'a>
    ensures { types_view result ≡ of_local place width (expected_view expected.entry) }
{
    ExpectedTypes {
        operands: Vec::new(alloc),
        receiver: None,
        local: Some(ExpectedLocal {
            place,
            width,
            expected,
        }),
        units: 0,
    }
}

/// Items of the stack are moved.
fn moves<'a>(alloc: Global, operator: StackOperator) -> ExpectedTypes<'a>
    ensures { types_view result ≡ of_units (units_taken (stack_forms operator)) }
{
    ExpectedTypes {
        operands: Vec::new(alloc),
        receiver: None,
        local: None,
        units: units_taken(operator.forms()),
    }
}

/// The numbers that are computed with.
fn of_numbers<'a>(alloc: Global, operator: NumericOperator) -> Result<ExpectedTypes<'a>, AllocError>
    ensures { IfOk result (λ x. types_view x ≡ of_operands (numbers (numeric_row operator).taken)) }
{
    let (taken, _) = operator.row();
    let mut types = Vec::with_capacity(alloc, taken.len())?;
    for kind in taken {
        types.push(ExpectedType::Number(*kind))?;
    }
    Ok(of_operands(types))
}

/// The array and the index of an element that is read.
fn of_element<'a>(alloc: Global, array: ExpectedType<'a>) -> Result<ExpectedTypes<'a>, AllocError>
    ensures { IfOk result (λ x. types_view x ≡ of_operands (number Int ∷ expected_view array.entry ∷ [])) }
{
    takes(alloc, &[ExpectedType::Number(Kind::Int), array])
}

/// The array, the index and the new value of an element.
fn of_stored_element<'a>(
    alloc: Global,
    value: ExpectedType<'a>,
    array: ExpectedType<'a>,
) -> Result<ExpectedTypes<'a>, AllocError>
    ensures { IfOk result (λ x. types_view x
        ≡ of_operands (expected_view value.entry ∷ number Int ∷ expected_view array.entry ∷ [])) }
{
    takes(alloc, &[value, ExpectedType::Number(Kind::Int), array])
}

/// The number that is returned, where the method gives one of this kind.
fn of_returned_number<'a>(
    alloc: Global,
    method: &CodeMethod<'_, 'a>,
    kind: Kind,
) -> Result<ExpectedTypes<'a>, AllocError>
    ensures { IfOk result (λ x. types_view x
        ≡ expected_types (return_number (method_view method.now).type.result kind)) }
{
    match number_of_result(method.result_type) {
        None => Ok(of_nothing(alloc)),
        Some(given) => if given == kind {
            takes(alloc, &[ExpectedType::Number(kind)])
        } else {
            Ok(of_nothing(alloc))
        },
    }
}

/// The reference that is returned, where the method gives one.
fn of_returned_reference<'a>(
    alloc: Global,
    method: &CodeMethod<'_, 'a>,
) -> Result<ExpectedTypes<'a>, AllocError>
    ensures { IfOk result (λ x. types_view x
        ≡ expected_types (return_reference (method_view method.now).type.result)) }
{
    match reference_of_result(method.result_type) {
        None => Ok(of_nothing(alloc)),
        Some(t) => takes(alloc, &[ExpectedType::Assignable(t)]),
    }
}

/// The new value of a static field.
fn of_put_static<'a>(
    alloc: Global,
    named: Option<FieldConstant<'a>>,
) -> Result<ExpectedTypes<'a>, AllocError>
    ensures { IfOk result (λ x. types_view x
        ≡ expected_types (put_static (option_map field_constant_view named.entry))) }
{
    match named {
        None => Ok(of_nothing(alloc)),
        Some(field) => takes(alloc, &[expected_of(&field.field_type)]),
    }
}

/// The object whose field is read.
fn of_get_field<'a>(
    alloc: Global,
    named: Option<FieldConstant<'a>>,
) -> Result<ExpectedTypes<'a>, AllocError>
    ensures { IfOk result (λ x. types_view x
        ≡ expected_types (get_field (option_map field_constant_view named.entry))) }
{
    match named {
        None => Ok(of_nothing(alloc)),
        Some(field) => {
            let object = ExpectedType::Assignable(RefType::Class(field.class));
            takes(alloc, &[object])
        }
    }
}

/// The object whose field is set, and the new value.
fn of_put_field<'a>(
    alloc: Global,
    method: &CodeMethod<'_, 'a>,
    named: Option<FieldConstant<'a>>,
    own: bool,
) -> Result<ExpectedTypes<'a>, AllocError>
    requires own { own ≡ is_own (method_view method.now) (option_map field_constant_view named) }
    ensures { IfOk result (λ x. types_view x
        ≡ expected_types (put_field (method_view method.now) (option_map field_constant_view named.entry))) }
{
    match named {
        None => Ok(of_nothing(alloc)),
        Some(field) => {
            let target = target_of(method, &field, own);
            takes(alloc, &[expected_of(&field.field_type), target])
        }
    }
}

/// The arguments of a call, on a receiver, if it has one.
fn of_call<'a>(
    alloc: Global,
    called: &MethodType<'a>,
    receiver: Option<ExpectedType<'a>>,
) -> Result<ExpectedTypes<'a>, AllocError>
    ensures { IfOk result (λ x. types_view x ≡ of_operands (arguments_on (method_of called.now).params
        (option_to_list (option_map expected_view receiver.entry)))) }
{
    Ok(of_operands(arguments_on(alloc, &called.params, receiver)?))
}

/// The arguments of a call without a receiver, where `invokestatic` may name the method.
fn of_static_call<'a>(
    alloc: Global,
    method: &CodeMethod<'_, 'a>,
    named: Option<&MethodConstant<'a>>,
) -> Result<ExpectedTypes<'a>, AllocError>
    ensures { let m = method_view method.now in IfOk result (λ x. types_view x
        ≡ expected_types (invoke_static m.major_version (option_map (λ c. method_constant_view c.now) named.entry))) }
{
    let Some(called) = named else {
        return Ok(of_nothing(alloc));
    };
    if may_invoke_static(method.class.major_version, called) {
        of_call(alloc, &called.method_type, None)
    } else {
        Ok(of_nothing(alloc))
    }
}

/// The arguments and the receiver of a call, where `invokevirtual` may name the method.
fn of_virtual_call<'a>(
    alloc: Global,
    named: Option<&MethodConstant<'a>>,
) -> Result<ExpectedTypes<'a>, AllocError>
    ensures { IfOk result (λ x. types_view x
        ≡ expected_types (invoke_virtual (option_map (λ c. method_constant_view c.now) named.entry))) }
{
    let Some(called) = named else {
        return Ok(of_nothing(alloc));
    };
    if may_invoke_virtual(called) {
        let receiver = Some(ExpectedType::Assignable(called.class));
        of_call(alloc, &called.method_type, receiver)
    } else {
        Ok(of_nothing(alloc))
    }
}

/// The arguments and the receiver of a call, where `invokeinterface` may name the method with this count.
fn of_interface_call<'a>(
    alloc: Global,
    named: Option<&MethodConstant<'a>>,
    count: u8,
) -> Result<ExpectedTypes<'a>, AllocError>
    ensures { IfOk result (λ x. types_view x
        ≡ expected_types (invoke_interface count (option_map (λ c. method_constant_view c.now) named.entry))) }
{
    let Some(called) = named else {
        return Ok(of_nothing(alloc));
    };
    if may_invoke_interface(count, called) {
        let receiver = Some(ExpectedType::Assignable(called.class));
        of_call(alloc, &called.method_type, receiver)
    } else {
        Ok(of_nothing(alloc))
    }
}

/// The arguments of a constructor, on an object that is not initialized, where `invokespecial` may name it.
fn of_constructor_call<'a>(
    alloc: Global,
    called: &MethodConstant<'a>,
) -> Result<ExpectedTypes<'a>, AllocError>
    ensures { let c = method_constant_view called.now in
        IfOk result (λ x. types_view x ≡ expected_types (constructor_call c c.class)) }
{
    let RefType::Class(name) = called.class else {
        return Ok(of_nothing(alloc));
    };
    if !may_construct_by(called) {
        return Ok(of_nothing(alloc));
    }
    Ok(ExpectedTypes {
        operands: arguments_on(alloc, &called.method_type.params, None)?,
        receiver: Some(name),
        local: None,
        units: 0,
    })
}

/// The arguments of a method that is not a constructor, on an object of the current class, where `invokespecial` may
/// name it.
fn of_own_call<'a>(
    alloc: Global,
    method: &CodeMethod<'_, 'a>,
    called: &MethodConstant<'a>,
) -> Result<ExpectedTypes<'a>, AllocError>
    ensures { let m = method_view method.now in IfOk result (λ x. types_view x
        ≡ expected_types (special_call m.major_version m.class (method_constant_view called.now))) }
{
    if may_call_special(method.class.major_version, called) {
        let receiver = ExpectedType::Assignable(RefType::Class(own_class(method)));
        of_call(alloc, &called.method_type, Some(receiver))
    } else {
        Ok(of_nothing(alloc))
    }
}

/// The arguments and the object of `invokespecial`.
fn of_special_call<'a>(
    alloc: Global,
    method: &CodeMethod<'_, 'a>,
    named: Option<&MethodConstant<'a>>,
) -> Result<ExpectedTypes<'a>, AllocError>
    ensures { let m = method_view method.now in IfOk result (λ x. types_view x ≡ expected_types
        (invoke_special m.major_version m.class (option_map (λ c. method_constant_view c.now) named.entry))) }
{
    let Some(called) = named else {
        return Ok(of_nothing(alloc));
    };
    if is_init(called) {
        of_constructor_call(alloc, called)
    } else {
        of_own_call(alloc, method, called)
    }
}

/// The arguments of a call site that may be called.
fn of_site<'a>(
    alloc: Global,
    named: Option<&CallSite<'a>>,
    bootstrapped: bool,
) -> Result<ExpectedTypes<'a>, AllocError>
    ensures { IfOk result (λ x. types_view x
        ≡ expected_types (dynamic_call bootstrapped (option_map (λ c. call_site_view c.now) named.entry))) }
{
    let Some(site) = named else {
        return Ok(of_nothing(alloc));
    };
    if !may_be_called(site) {
        return Ok(of_nothing(alloc));
    }
    if bootstrapped {
        of_call(alloc, &site.method_type, None)
    } else {
        Ok(of_nothing(alloc))
    }
}

/// The arguments of `invokedynamic`, where such calls are judged.
fn of_dynamic_call<'a>(
    alloc: Global,
    method: &CodeMethod<'_, 'a>,
    named: Option<&CallSite<'a>>,
    bootstrapped: bool,
) -> Result<ExpectedTypes<'a>, AllocError>
    ensures { let m = method_view method.now in IfOk result (λ x. types_view x
        ≡ expected_types (invoke_dynamic m bootstrapped (option_map (λ c. call_site_view c.now) named.entry))) }
{
    if method.dynamic {
        of_site(alloc, named, bootstrapped)
    } else {
        Ok(of_nothing(alloc))
    }
}

/// The length of an array of primitives, where the byte names a type.
fn of_new_array<'a>(
    alloc: Global,
    element: Option<Primitive>,
) -> Result<ExpectedTypes<'a>, AllocError>
    ensures { IfOk result (λ x. types_view x ≡ expected_types (new_array element)) }
{
    match element {
        None => Ok(of_nothing(alloc)),
        Some(_) => takes(alloc, &[ExpectedType::Number(Kind::Int)]),
    }
}

/// The length of an array of references, where the type may be that of its elements.
fn of_new_reference_array<'a>(
    alloc: Global,
    named: Option<RefType<'a>>,
) -> Result<ExpectedTypes<'a>, AllocError>
    ensures { IfOk result (λ x. types_view x
        ≡ expected_types (new_reference_array (option_map reference_view named.entry))) }
{
    let Some(component) = named else {
        return Ok(of_nothing(alloc));
    };
    if component.dimensions() < 255 {
        takes(alloc, &[ExpectedType::Number(Kind::Int)])
    } else {
        Ok(of_nothing(alloc))
    }
}

/// The lengths of an array of several dimensions, where its type has these.
fn of_new_multi_array<'a>(
    alloc: Global,
    named: Option<RefType<'a>>,
    dimensions: u8,
) -> Result<ExpectedTypes<'a>, AllocError>
    ensures { IfOk result (λ x. types_view x
        ≡ expected_types (new_multi_array dimensions (option_map reference_view named.entry))) }
{
    let Some(made) = named else {
        return Ok(of_nothing(alloc));
    };
    if dimensions > 0 && made.dimensions() >= dimensions {
        Ok(of_operands(sizes(alloc, dimensions)?))
    } else {
        Ok(of_nothing(alloc))
    }
}

/// The object that is cast, or asked for its class, where a type is named.
fn of_cast<'a>(alloc: Global, named: Option<RefType<'a>>) -> Result<ExpectedTypes<'a>, AllocError>
    ensures { IfOk result (λ x. types_view x
        ≡ expected_types (check_cast (option_map reference_view named.entry))) }
{
    let object = ExpectedType::Assignable(RefType::Class(OBJECT));
    match named {
        None => Ok(of_nothing(alloc)),
        Some(_) => takes(alloc, &[object]),
    }
}

impl<'a> ExpectedTypes<'a> {
    ghost use Rattle.std.specs.Prelude.{◌≡◌, IfOk};
    ghost use Rattle.insn.specs.Views.{act_view};
    ghost use Rattle.rules.specs.Bodies.{method_view};
    ghost use Rattle.rules.specs.ExpectedTypes.{expected_types, types_view};
    ghost use Rattle.rules.specs.Naming.{IsNamed};
    ghost use Rattle.rules.specs.Table.{typing_rule};

    /// The expected types of all that an instruction of a method takes, where the thing that it names was looked up.
    pub fn of(
        alloc: Global,
        method: &CodeMethod<'_, 'a>,
        act: &Act<'a>,
        named: &Named<'a>,
    ) -> Result<ExpectedTypes<'a>, AllocError>
        requires { IsNamed (method_view method.now) (act_view act.now) named.now }
        ensures { IfOk result (λ x. types_view x
            ≡ expected_types (typing_rule (method_view method.now) (act_view act.now))) }
    {
        match *act {
            Act::PutStatic { .. } => of_put_static(alloc, named.field()),
            Act::GetField { .. } => of_get_field(alloc, named.field()),
            Act::PutField { .. } => of_put_field(alloc, method, named.field(), named.is_own()),
            Act::InvokeVirtual { .. } => of_virtual_call(alloc, named.method()),
            Act::InvokeSpecial { .. } => of_special_call(alloc, method, named.method()),
            Act::InvokeStatic { .. } => of_static_call(alloc, method, named.method()),
            Act::InvokeInterface { count, .. } => of_interface_call(alloc, named.method(), count),
            Act::InvokeDynamic { .. } => {
                of_dynamic_call(alloc, method, named.site(), named.is_bootstrapped())
            }
            Act::NewReferenceArray { .. } => of_new_reference_array(alloc, named.class()),
            Act::NewMultiArray { dimensions, .. } => {
                of_new_multi_array(alloc, named.class(), dimensions)
            }
            Act::CheckCast { .. } => of_cast(alloc, named.class()),
            Act::InstanceOf { .. } => of_cast(alloc, named.class()),
            Act::Return(kind) => of_returned_number(alloc, method, kind),
            Act::ReturnReference => of_returned_reference(alloc, method),
            Act::GetStatic { .. } => Ok(of_nothing(alloc)),
            Act::LoadConstant { .. } => Ok(of_nothing(alloc)),
            Act::LoadWideConstant { .. } => Ok(of_nothing(alloc)),
            Act::New { .. } => Ok(of_nothing(alloc)),
            Act::ReturnVoid => Ok(of_nothing(alloc)),
            Act::Load { kind, local } => {
                Ok(reads(alloc, local, kind.units(), ExpectedType::Number(kind)))
            }
            Act::LoadReference { local } => { Ok(reads(alloc, local, 1, ExpectedType::Reference)) }
            Act::Increment { local } => {
                Ok(reads(alloc, local, 1, ExpectedType::Number(Kind::Int)))
            }
            Act::Nothing
            | Act::Constant(_)
            | Act::ConstantNull
            | Act::Goto { .. }
            | Act::Unsupported => Ok(of_nothing(alloc)),
            Act::Stack(operator) => Ok(moves(alloc, operator)),
            Act::Numeric(operator) => of_numbers(alloc, operator),
            Act::Store { kind, .. } => takes(alloc, &[ExpectedType::Number(kind)]),
            Act::IfInt { .. } | Act::Switch { .. } => {
                takes(alloc, &[ExpectedType::Number(Kind::Int)])
            }
            Act::IfInts { .. } => takes(alloc, &[ExpectedType::Number(Kind::Int); 2]),
            Act::IfReferences { .. } => takes(alloc, &[ExpectedType::Reference; 2]),
            Act::StoreReference { .. } | Act::IfNull { .. } | Act::Monitor => {
                takes(alloc, &[ExpectedType::Reference])
            }
            Act::LoadElement(p) => of_element(alloc, ExpectedType::ArrayFor(p)),
            Act::LoadReferenceElement => of_element(alloc, object_array()),
            Act::StoreElement(p) => {
                let value = ExpectedType::Number(computed_as(p));
                of_stored_element(alloc, value, ExpectedType::ArrayFor(p))
            }
            Act::StoreReferenceElement => {
                let object = ExpectedType::Assignable(RefType::Class(OBJECT));
                of_stored_element(alloc, object, object_array())
            }
            Act::ArrayLength => takes(alloc, &[ExpectedType::Array]),
            Act::NewArray(element) => of_new_array(alloc, element),
            Act::Throw => takes(alloc, &[throwable()]),
        }
    }
}
