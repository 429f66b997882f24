//! Looking up in the constant pool. No look-up takes memory.
ghost use Rattle.std.specs.Prelude.{◌≡◌, ◌<◌, length, slice_get, Some, IfOk, MatchResult};
ghost use Rattle.pool.specs.Lookups.{Answers, entry_at, text_at, class_name_at, named, name_and_type_at, member, field_ref_at, method, method_ref_at, dynamic_at, invoke_dynamic_at};
ghost use Rattle.pool.specs.Views.{view, views, name_and_type_view, field_ref_view, method_ref_view};
ghost use Rattle.pool.specs.TextPlaces.{StandsIn, StandIn, named_view, member_view, method_view};

use crate::constant::Constant;
use crate::constant_pool::Pool;
use crate::fault::PoolFault;
use crate::reference::{FieldRef, MethodRef, NameAndType};
use names::Text;

/// A text, and the index at which it stands.
#[derive(Clone, Copy)]
pub(crate) struct TextAt<'a> {
    pub index: u16,
    pub text: Text<'a>,
}

/// The texts of a field or a method (JVMS 4.4.2).
#[derive(Clone, Copy)]
pub(crate) struct Member<'a> {
    pub class: TextAt<'a>,
    pub name: Text<'a>,
    pub descriptor: TextAt<'a>,
}

fn constant_at<'a>(constants: &[Constant<'a>], place: usize) -> Constant<'a>
    requires { place < length constants.now }
    ensures { slice_get constants.now place ≡ Some result }
{
    constants[place]
}

/// The constant at an index, in a list of constants of which the first has index 1.
#[tactic(auto, unfolding(crate::specs::Lookups::entry_at))]
fn usable_at<'a>(constants: &[Constant<'a>], index: u16) -> Result<Constant<'a>, PoolFault>
    ensures { Answers view (entry_at (views constants.now) index) result }
{
    if index == 0 {
        return Err(PoolFault::BadIndex { index });
    }
    let place = index as usize - 1;
    if place >= constants.len() {
        return Err(PoolFault::BadIndex { index });
    }
    match constant_at(constants, place) {
        Constant::Unusable => Err(PoolFault::BadIndex { index }),
        constant => Ok(constant),
    }
}

impl<'a> Pool<'a> {
    /// The constant at this index, or 8 `BadIndex` where it is 0, past the end, or the second index
    /// of a Long or Double.
    pub fn get(&self, index: u16) -> Result<Constant<'a>, PoolFault>
        ensures { Answers view (entry_at self.now index) result }
    {
        usable_at(self.constants(), index)
    }

    /// The text of the Utf8 at this index, or 8 as [`get`](Pool::get), or 9 `WrongKind` where
    /// another kind stands there.
    #[tactic(auto, unfolding(crate::specs::Lookups::text_at))]
    pub fn text(&self, index: u16) -> Result<Text<'a>, PoolFault>
        ensures { Answers (λ t. t.bytes.now) (text_at self.now index) result }
    {
        match self.get(index)? {
            Constant::Utf8(text) => Ok(text),
            _ => Err(PoolFault::WrongKind { index }),
        }
    }

    /// The name of the Class at this index, with its own index; or 8 or 9 as [`class_name`](Pool::class_name).
    #[tactic(auto, unfolding(crate::specs::Lookups::class_name_at))]
    pub(crate) fn named_class(&self, index: u16) -> Result<TextAt<'a>, PoolFault>
        ensures found { Answers (λ t. t.text.bytes.now) (class_name_at self.now index) result }
        ensures stands { IfOk result (StandsIn self.now) }
    {
        match self.get(index)? {
            Constant::Class { name } => {
                let text = self.text(name)?;
                Ok(TextAt { index: name, text })
            }
            _ => Err(PoolFault::WrongKind { index }),
        }
    }

    /// The name of the Class at this index (JVMS 4.4.1), which may be an array's descriptor; or 8
    /// or 9, with the index at fault: this one, or that of the name.
    pub fn class_name(&self, index: u16) -> Result<Text<'a>, PoolFault>
        ensures { Answers (λ t. t.bytes.now) (class_name_at self.now index) result }
    {
        let name = self.named_class(index)?;
        Ok(name.text)
    }

    /// The texts of the NameAndType at this index, the descriptor with its own; or 8 or 9 as
    /// [`name_and_type`](Pool::name_and_type).
    #[tactic(auto, unfolding(crate::specs::Lookups::name_and_type_at))]
    fn name_and_descriptor(&self, index: u16) -> Result<(Text<'a>, TextAt<'a>), PoolFault>
        ensures found { Answers named_view (name_and_type_at self.now index) result }
        ensures stands { IfOk result (λ x. StandsIn self.now x.1) }
    {
        match self.get(index)? {
            Constant::NameAndType { name, descriptor } => self.named(name, descriptor),
            _ => Err(PoolFault::WrongKind { index }),
        }
    }

    /// The texts of the NameAndType at this index (JVMS 4.4.6); or 8 or 9, with the index at fault:
    /// this one, that of the name, or that of the descriptor.
    pub fn name_and_type(&self, index: u16) -> Result<NameAndType<'a>, PoolFault>
        ensures { Answers name_and_type_view (name_and_type_at self.now index) result }
    {
        let (name, descriptor) = self.name_and_descriptor(index)?;
        Ok(NameAndType {
            name,
            descriptor: descriptor.text,
        })
    }

    /// The texts that the Fieldref at this index leads to, with their own indices; or 8 or 9 as
    /// [`field_ref`](Pool::field_ref).
    #[tactic(auto, unfolding(crate::specs::Lookups::field_ref_at))]
    pub(crate) fn field_member(&self, index: u16) -> Result<Member<'a>, PoolFault>
        ensures found { Answers member_view (field_ref_at self.now index) result }
        ensures stands { IfOk result (StandIn self.now) }
    {
        match self.get(index)? {
            Constant::Fieldref {
                class,
                name_and_type,
            } => self.member(class, name_and_type),
            _ => Err(PoolFault::WrongKind { index }),
        }
    }

    /// The texts of the Fieldref at this index (JVMS 4.4.2); or 8 or 9, with the first index at
    /// fault: this one, then those of the class and its name, then those of the NameAndType, its
    /// name and its descriptor.
    pub fn field_ref(&self, index: u16) -> Result<FieldRef<'a>, PoolFault>
        ensures { Answers field_ref_view (field_ref_at self.now index) result }
    {
        let field = self.field_member(index)?;
        Ok(FieldRef {
            class: field.class.text,
            name: field.name,
            descriptor: field.descriptor.text,
        })
    }

    /// The texts that the Methodref or InterfaceMethodref at this index leads to, with their own indices, and which of
    /// the two it is; or 8 or 9 as [`method_ref`](Pool::method_ref).
    #[tactic(auto, unfolding(crate::specs::Lookups::method_ref_at))]
    pub(crate) fn method_member(&self, index: u16) -> Result<(bool, Member<'a>), PoolFault>
        ensures found { Answers (λ x. method_view x.0 x.1) (method_ref_at self.now index) result }
        ensures stands { IfOk result (λ x. StandIn self.now x.1) }
    {
        match self.get(index)? {
            Constant::Methodref {
                class,
                name_and_type,
            } => self.method(false, class, name_and_type),
            Constant::InterfaceMethodref {
                class,
                name_and_type,
            } => self.method(true, class, name_and_type),
            _ => Err(PoolFault::WrongKind { index }),
        }
    }

    /// The texts of the Methodref or InterfaceMethodref at this index (JVMS 4.4.2), and which of
    /// the two it is; or 8 or 9 as [`field_ref`](Pool::field_ref).
    pub fn method_ref(&self, index: u16) -> Result<MethodRef<'a>, PoolFault>
        ensures { Answers method_ref_view (method_ref_at self.now index) result }
    {
        let (interface, method) = self.method_member(index)?;
        Ok(MethodRef {
            interface,
            class: method.class.text,
            name: method.name,
            descriptor: method.descriptor.text,
        })
    }

    /// The texts that the Dynamic at this index leads to, the descriptor with its own; or 8 or 9 as
    /// [`dynamic`](Pool::dynamic).
    #[tactic(auto, unfolding(crate::specs::Lookups::dynamic_at))]
    pub(crate) fn dynamic_texts(&self, index: u16) -> Result<(Text<'a>, TextAt<'a>), PoolFault>
        ensures found { Answers named_view (dynamic_at self.now index) result }
        ensures stands { IfOk result (λ x. StandsIn self.now x.1) }
    {
        match self.get(index)? {
            Constant::Dynamic { name_and_type, .. } => self.name_and_descriptor(name_and_type),
            _ => Err(PoolFault::WrongKind { index }),
        }
    }

    /// The texts of the Dynamic at this index (JVMS 4.4.10); or 8 or 9, with the first index at fault: this one, then
    /// those of the NameAndType, its name and its descriptor.
    pub fn dynamic(&self, index: u16) -> Result<NameAndType<'a>, PoolFault>
        ensures { Answers name_and_type_view (dynamic_at self.now index) result }
    {
        let (name, descriptor) = self.dynamic_texts(index)?;
        Ok(NameAndType {
            name,
            descriptor: descriptor.text,
        })
    }

    /// The texts that the InvokeDynamic at this index leads to, the descriptor with its own; or 8 or 9 as
    /// [`invoke_dynamic`](Pool::invoke_dynamic).
    #[tactic(auto, unfolding(crate::specs::Lookups::invoke_dynamic_at))]
    pub(crate) fn invoke_dynamic_texts(
        &self,
        index: u16,
    ) -> Result<(Text<'a>, TextAt<'a>), PoolFault>
        ensures found { Answers named_view (invoke_dynamic_at self.now index) result }
        ensures stands { IfOk result (λ x. StandsIn self.now x.1) }
    {
        match self.get(index)? {
            Constant::InvokeDynamic { name_and_type, .. } => {
                self.name_and_descriptor(name_and_type)
            }
            _ => Err(PoolFault::WrongKind { index }),
        }
    }

    /// The texts of the InvokeDynamic at this index (JVMS 4.4.10); or 8 or 9 as [`dynamic`](Pool::dynamic).
    pub fn invoke_dynamic(&self, index: u16) -> Result<NameAndType<'a>, PoolFault>
        ensures { Answers name_and_type_view (invoke_dynamic_at self.now index) result }
    {
        let (name, descriptor) = self.invoke_dynamic_texts(index)?;
        Ok(NameAndType {
            name,
            descriptor: descriptor.text,
        })
    }

    #[tactic(auto, unfolding(crate::specs::Lookups::named))]
    fn named(&self, name: u16, descriptor: u16) -> Result<(Text<'a>, TextAt<'a>), PoolFault>
        ensures found { Answers named_view (named self.now name descriptor) result }
        ensures stands { IfOk result (λ x. StandsIn self.now x.1) }
    {
        let name = self.text(name)?;
        let text = self.text(descriptor)?;
        Ok((
            name,
            TextAt {
                index: descriptor,
                text,
            },
        ))
    }

    #[tactic(auto, unfolding(crate::specs::Lookups::member))]
    fn member(&self, class: u16, name_and_type: u16) -> Result<Member<'a>, PoolFault>
        ensures found { Answers member_view (member self.now class name_and_type) result }
        ensures stands { IfOk result (StandIn self.now) }
    {
        let class = self.named_class(class)?;
        let (name, descriptor) = self.name_and_descriptor(name_and_type)?;
        Ok(Member {
            class,
            name,
            descriptor,
        })
    }

    #[tactic(auto, unfolding(crate::specs::Lookups::method))]
    fn method(
        &self,
        interface: bool,
        class: u16,
        name_and_type: u16,
    ) -> Result<(bool, Member<'a>), PoolFault>
        ensures found { Answers (λ x. method_view x.0 x.1) (method self.now interface class name_and_type) result }
        ensures stands { IfOk result (λ x. StandIn self.now x.1) }
    {
        let member = self.member(class, name_and_type)?;
        Ok((interface, member))
    }
}
