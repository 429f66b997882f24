//! The classes whose methods `invokespecial` may call by an InterfaceMethodref (JVMS 4.9.2).
ghost use Rattle.std.specs.Prelude.{◌≡◌, ◌||◌, ℕ, List, Ok, map, IfOk};
ghost use Rattle.std.specs.List.{list_any};
ghost use Rattle.std.specs.Str.{bytes_eq};
ghost use Rattle.names.specs.MetNames.{is_met};
ghost use Rattle.pool.specs.Lookups.{text_at};
ghost use Rattle.classfile.specs.declared.class_file.ClassFile.{ClassFile};
ghost use Rattle.classfile.specs.Methods.{is_name, names_at, superclass_of};
ghost use Rattle.rules.specs.Guards.{is_direct_of, interface_name, AreDirect};

use crate::declaring_class::{class_name, superclass_name};
use classfile::ClassFile;
use names::MetNames;
use pool::{Constant, Pool};
use std::alloc::{AllocError, Global};

/// The class itself, its direct superclass and its direct superinterfaces. For each text of the pool it is noted
/// whether that is the name of one of them, once it was asked for: each text is looked for by its bytes once. There is
/// room for as many notes as the pool has entries, and for one more.
#[derive(Drop)]
pub struct DirectClasses<'a> {
    names: MetNames<'a>,
    answers: Vec<Option<bool>>,
}

/// The index of the name of the class of the InterfaceMethodref at an index.
pub fn interface_name(pool: &Pool<'_>, index: u16) -> Option<u16>
    ensures { result ≡ interface_name pool.now index }
{
    let Ok(Constant::InterfaceMethodref { class, .. }) = pool.get(index) else {
        return None;
    };
    match pool.get(class) {
        Ok(Constant::Class { name }) => Some(name),
        _ => None,
    }
}

/// Meets the names of the classes at these indices.
fn meet_all<'a>(
    pool: &Pool<'a>,
    indices: &[u16],
    names: &mut MetNames<'a>,
) -> Result<(), AllocError>
    ensures { IfOk result (λ _. (name : List ℕ) → is_met names.new name
        ≡ (list_any (λ other. bytes_eq other name) (names_at pool.now (map (λ n. n) indices.now))
        || is_met names.old name)) }
{
    for index in indices {
        if let Ok(name) = pool.class_name(*index) {
            names.meet(name.bytes(), 0)?;
        }
    }
    Ok(())
}

/// Meets the name of the direct superclass of a class, if it has one.
fn meet_superclass<'a>(class: &ClassFile<'a>, names: &mut MetNames<'a>) -> Result<(), AllocError>
    ensures { IfOk result (λ _. (name : List ℕ) → is_met names.new name
        ≡ (is_name (superclass_of class.now.constant_pool class.now.super_class) name || is_met names.old name)) }
{
    if let Some(name) = superclass_name(class) {
        names.meet(name, 0)?;
    }
    Ok(())
}

impl<'a> DirectClasses<'a> {
    /// Finds them in a class file. It fails only if memory runs out.
    pub fn new(alloc: Global, class: &ClassFile<'a>) -> Result<DirectClasses<'a>, AllocError>
        ensures { IfOk result (AreDirect class.now) }
    {
        let pool = &class.constant_pool;
        let mut names = MetNames::new(alloc);
        meet_all(pool, &class.interfaces, &mut names)?;
        meet_superclass(class, &mut names)?;
        names.meet(class_name(class), 0)?;
        let answers = vec![in alloc; None; pool.constants().len() + 1]?;
        Ok(DirectClasses { names, answers })
    }

    /// Whether the text at an index of the pool is the name of one of the classes. Takes no memory.
    pub fn has(&mut self, pool: &Pool<'a>, index: u16) -> bool
        ensures { (c : ClassFile) → c.constant_pool ≡ pool.now → AreDirect c self.old
            → AreDirect c self.new × ((name : List ℕ) → text_at pool.now index ≡ Ok name
            → result ≡ is_direct_of c name) }
    {
        let at = usize::from(index);
        if let Some(Some(answer)) = self.answers.get(at) {
            return *answer;
        }
        let answer = match pool.text(index) {
            Ok(name) => self.names.has(name.bytes()),
            Err(_) => false,
        };
        if at < self.answers.len() {
            self.answers[at] = Some(answer);
        }
        answer
    }
}
