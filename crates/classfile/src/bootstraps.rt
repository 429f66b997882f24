//! The bootstrap methods of a class (JVMS 4.7.23).
ghost use Rattle.std.specs.Prelude.{◌≡◌, map, option_map, IfOk};
ghost use Rattle.layout.specs.Faults.{GoesOn};
ghost use Rattle.pool.specs.Lookups.{entry_at};
ghost use Rattle.pool.specs.Views.{view};
ghost use Rattle.classfile.specs.Bootstraps.{arguments, entries_of, body_of, bodies_of, only, is_handle, is_loadable, is_argument, are_arguments, is_sound, bootstraps_of, has_bootstrap, is_bad_body, has_bad_bootstraps};
ghost use Rattle.std.specs.List.{list_all, list_any};
ghost use Rattle.classfile.specs.BootstrapViews.{bootstrap_view, AreSound};
ghost use Rattle.classfile.specs.Indices.{on_found};
ghost use Rattle.classfile.specs.Views.{class_attribute_view, class_view};

use crate::class_attribute::ClassAttribute;
use crate::class_file::ClassFile;
use crate::location::{Location, is_named};
use crate::table::{Item, put_table, take_table};
use layout::{Cursor, Output, ReadFault, WriteFault};
use pool::{Constant, Pool};
use std::alloc::{AllocError, Global};
use std::marker::Model;

/// An entry of a BootstrapMethods attribute.
#[derive(Drop)]
pub struct BootstrapMethod {
    handle: u16,
    arguments: Vec<u16>,
}

#[tactic(auto, unfolding(crate::specs::Bootstraps::arguments))]
fn arguments<'a>(
    alloc: Global,
    pool: &Pool<'a>,
    cursor: &mut Cursor<'a>,
) -> Result<Vec<u16>, ReadFault>
    ensures { GoesOn arguments (λ v. map (λ n. n) v.items) cursor.old cursor.new result }
{
    take_table::<u16>(alloc, pool, Location::Code, cursor)
}

impl<'a> Item<'a> for BootstrapMethod {
    ghost use Rattle.classfile.specs.Bootstraps as bootstraps;
    ghost use Rattle.classfile.specs.Bootstraps.{bootstrap_method, bootstrap_pieces};
    ghost use Rattle.classfile.specs.BootstrapViews.{bootstrap_view};

    ghost View = { bootstraps.BootstrapMethod };

    ghost view = { bootstrap_view };

    ghost format = { λ _ _. bootstrap_method };

    ghost pieces = { λ _ _. bootstrap_pieces };

    #[tactic(auto, using(crate::proofs::Steps::steps), unfolding(crate::specs::Bootstraps::bootstrap_method))]
    fn take(
        alloc: Global,
        pool: &Pool<'a>,
        _location: Location,
        cursor: &mut Cursor<'a>,
    ) -> Result<Self, ReadFault> {
        let handle = cursor.u2()?;
        let arguments = arguments(alloc, pool, cursor)?;
        Ok(BootstrapMethod { handle, arguments })
    }

    #[tactic(auto, using(layout::specs::PieceLaws::writes_append))]
    fn put(&self, pool: &Pool<'_>, location: Location, out: &mut Output) -> Result<(), WriteFault> {
        out.put_u2(self.handle)?;
        put_table(out, pool, location, &self.arguments)
    }
}

/// Whether the constant may be loaded (JVMS 4.4, table 4.4-C).
fn is_loadable(constant: &Constant<'_>) -> bool
    ensures { result ≡ is_loadable (view constant.now) }
{
    matches!(
        constant,
        Constant::Integer { .. }
            | Constant::Float { .. }
            | Constant::Long { .. }
            | Constant::Double { .. }
            | Constant::Class { .. }
            | Constant::String { .. }
            | Constant::MethodHandle { .. }
            | Constant::MethodType { .. }
            | Constant::Dynamic { .. }
    )
}

/// Whether a constant that may be loaded stands at an index.
fn is_argument(pool: &Pool<'_>, index: u16) -> bool
    ensures { result ≡ is_argument pool.now index }
{
    match pool.get(index) {
        Ok(constant) => is_loadable(&constant),
        Err(_) => false,
    }
}

/// Whether such a constant stands at each of these indices.
#[tactic(auto, unfolding(crate::specs::Bootstraps::are_arguments))]
fn are_arguments(pool: &Pool<'_>, indices: &[u16]) -> bool
    ensures { result ≡ are_arguments pool.now (map (λ n. n) indices.now) }
{
    indices.iter().all(|index| is_argument(pool, *index))
}

/// Whether a MethodHandle stands at an index.
fn is_handle(pool: &Pool<'_>, index: u16) -> bool
    ensures { result ≡ on_found is_handle (entry_at pool.now index) }
{
    matches!(pool.get(index), Ok(Constant::MethodHandle { .. }))
}

/// Whether the entry's handle is a MethodHandle, and each of its static arguments may be loaded.
#[tactic(auto, unfolding(crate::specs::Bootstraps::is_sound))]
fn is_sound(pool: &Pool<'_>, method: &BootstrapMethod) -> bool
    ensures { result ≡ is_sound pool.now (bootstrap_view method.now) }
{
    is_handle(pool, method.handle) && are_arguments(pool, &method.arguments)
}

/// Whether each of the entries may be used.
fn are_sound(pool: &Pool<'_>, methods: &[BootstrapMethod]) -> bool
    ensures { result ≡ list_all (is_sound pool.now) (map bootstrap_view methods.now) }
{
    methods.iter().all(|method| is_sound(pool, method))
}

/// The entries of a body; none where it is not laid out so.
#[tactic(auto, unfolding(crate::specs::Bootstraps::bootstrap_methods))]
fn entries_of<'a>(
    alloc: Global,
    pool: &Pool<'a>,
    body: &'a [u8],
) -> Result<Vec<BootstrapMethod>, AllocError>
    ensures { IfOk result (λ v. map bootstrap_view v.items ≡ entries_of body.entry.now) }
{
    let mut cursor = Cursor::new(body);
    match take_table::<BootstrapMethod>(alloc, pool, Location::Code, &mut cursor) {
        Ok(methods) if cursor.rest().is_empty() => Ok(methods),
        Err(ReadFault::OutOfMemory) => Err(AllocError),
        Ok(_) | Err(_) => Ok(Vec::new(alloc)),
    }
}

/// The body of a BootstrapMethods attribute.
fn body_of<'a>(pool: &Pool<'_>, attribute: &ClassAttribute<'a>) -> Option<&'a [u8]>
    ensures { option_map (λ b. b.now) result ≡ body_of pool.now (class_attribute_view attribute.now) }
{
    match attribute {
        ClassAttribute::Raw { name, body } if is_named(pool, *name, b"BootstrapMethods") => {
            Some(body)
        }
        _ => None,
    }
}

/// Whether the body is not laid out as the attribute's is, or one of its entries may not be used.
#[tactic(auto, unfolding(crate::specs::Bootstraps::bootstrap_methods, crate::specs::Bootstraps::is_bad_body))]
fn is_bad_body<'a>(alloc: Global, pool: &Pool<'a>, body: &'a [u8]) -> Result<bool, AllocError>
    ensures { IfOk result (λ r. r ≡ is_bad_body pool.now body.entry.now) }
{
    let mut cursor = Cursor::new(body);
    match take_table::<BootstrapMethod>(alloc, pool, Location::Code, &mut cursor) {
        Ok(methods) => Ok(!(cursor.rest().is_empty() && are_sound(pool, &methods))),
        Err(ReadFault::OutOfMemory) => Err(AllocError),
        Err(_) => Ok(true),
    }
}

/// Whether a BootstrapMethods attribute among these is not laid out as 4.7.23 says, or has an entry that may not be
/// used.
fn one_is_bad<'a>(
    alloc: Global,
    pool: &Pool<'a>,
    attributes: &[ClassAttribute<'a>],
) -> Result<bool, AllocError>
    ensures { IfOk result (λ r. r
        ≡ list_any (is_bad_body pool.now) (bodies_of pool.now (map class_attribute_view attributes.now))) }
{
    for attribute in attributes {
        if let Some(body) = body_of(pool, attribute) {
            if is_bad_body(alloc, pool, body)? {
                return Ok(true);
            }
        }
    }
    Ok(false)
}

/// Whether such an attribute stands in the class, which has a major version from 51 on.
#[tactic(auto, unfolding(crate::specs::Bootstraps::has_bad_bootstraps))]
pub fn has_bad_bootstraps(alloc: Global, class: &ClassFile<'_>) -> Result<bool, AllocError>
    ensures { IfOk result (λ r. r ≡ has_bad_bootstraps (class_view class.now)) }
{
    if class.major_version < 51 {
        return Ok(false);
    }
    let bad = one_is_bad(alloc, &class.constant_pool, &class.attributes)?;
    Ok(bad)
}

/// The body of the only BootstrapMethods attribute.
fn only_body<'a>(pool: &Pool<'a>, attributes: &[ClassAttribute<'a>]) -> Option<&'a [u8]>
    ensures { option_map (λ b. b.now) result ≡ only (bodies_of pool.now (map class_attribute_view attributes.now)) }
{
    let mut found = None;
    for attribute in attributes {
        if let Some(body) = body_of(pool, attribute) {
            if found.is_some() {
                return None;
            }
            found = Some(body);
        }
    }
    found
}

/// Which of these entries may be used.
fn sound_ones(
    alloc: Global,
    pool: &Pool<'_>,
    methods: &[BootstrapMethod],
) -> Result<Vec<bool>, AllocError>
    ensures { IfOk result (λ v. v.items ≡ map (is_sound pool.now) (map bootstrap_view methods.now)) }
{
    let mut sound = Vec::with_capacity(alloc, methods.len())?;
    for method in methods {
        sound.push(is_sound(pool, method))?;
    }
    Ok(sound)
}

/// Tells of each bootstrap method of a class, in turn, whether it may be used.
#[tactic(auto, unfolding(crate::specs::Bootstraps::bootstraps_of))]
fn sound_of(alloc: Global, class: &ClassFile<'_>) -> Result<Vec<bool>, AllocError>
    ensures { IfOk result (AreSound class.now) }
{
    let pool = &class.constant_pool;
    match only_body(pool, &class.attributes) {
        Some(body) => {
            let methods = entries_of(alloc, pool, body)?;
            sound_ones(alloc, pool, &methods)
        }
        None => Ok(Vec::new(alloc)),
    }
}

/// The bootstrap methods of a class, as its instructions ask for them. All of them are looked at when they are asked
/// first.
#[derive(Drop)]
pub struct Bootstraps<'c, 'a> {
    alloc: Global,
    class: &'c ClassFile<'a>,
    sound: Option<Vec<bool>>,
}

impl<'c, 'a> Model for Bootstraps<'c, 'a> {
    ghost use Rattle.std.specs.Prelude.{IfSome};
    ghost use Rattle.classfile.specs.declared.class_file.ClassFile.{ClassFile};
    ghost use Rattle.classfile.specs.BootstrapViews.{AreSound};

    ghost Value = { ClassFile };

    ghost view = { λ b. b.class.now };

    ghost invariant = { λ b. IfSome b.sound (AreSound b.class.now) };
}

impl<'c, 'a> Bootstraps<'c, 'a> {
    /// The bootstrap methods of a class, none of which was asked for yet.
    pub fn new(alloc: Global, class: &'c ClassFile<'a>) -> Bootstraps<'c, 'a>
        ensures { result ≡ class.now }
    {
        Bootstraps {
            alloc,
            class,
            sound: None,
        }
    }

    /// Which of them may be used, taken out.
    fn take_sound(&mut self) -> Result<Vec<bool>, AllocError>
        ensures same { self.new ≡ self.old }
        ensures sound { IfOk result (AreSound self.old) }
    {
        match self.sound.take() {
            Some(sound) => Ok(sound),
            None => sound_of(self.alloc, self.class),
        }
    }

    /// Whether the class has a bootstrap method of this number, which counts from 0, whose handle is a MethodHandle and
    /// whose static arguments may be loaded (JVMS 4.4.10, 4.7.23). A call takes the same time however many there are,
    /// but that the first looks at each once. It fails only if memory runs out.
    #[tactic(auto, unfolding(crate::specs::Bootstraps::has_bootstrap))]
    pub fn has(&mut self, number: u16) -> Result<bool, AllocError>
        ensures same { self.new ≡ self.old }
        ensures found { IfOk result (λ b. b
            ≡ has_bootstrap self.old.constant_pool (bootstraps_of (class_view self.old)) number) }
    {
        let sound = self.take_sound()?;
        let answer = sound.get(number as usize).copied().unwrap_or(false);
        self.sound = Some(sound);
        Ok(answer)
    }
}
