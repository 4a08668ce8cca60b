//! The names of the objects of a batch, and what is named and is none of them.
ghost use Rattle.std.specs.Prelude.{◌≡◌, ◌++◌, ◌∷◌, [], ℕ, List, IfOk, IfErr, IfSome, IfNone, OnOk, IsErrOf, Contains};
ghost use Rattle.std.specs.List.{AllByRecursion};
ghost use Rattle.swh_base.specs.declared.entry.Entry.{Entry};
ghost use Rattle.swh_base.specs.declared.name.Name.{Name as AnyName};
ghost use Rattle.swh_object.specs.Object.{IsObject};
ghost use Rattle.swh_dedup.specs.Whole.{names_of, HasChildrenAmong};
ghost use Rattle.swh_batchread.specs.declared.fault.BatchFault.TheVariants.{ReadFault as NotRead};
ghost use Rattle.swh_batchread.specs.Failing.{Fails};
ghost use Rattle.swh_batchread.specs.RefSteps.{LeadsFirst, KnowsNames, KnowsObjects, knowing, HasIdIn, LacksIn, LacksSome};
ghost use Rattle.swh_batchread.specs.RefsFault.{IsFirstLacking, MayBreakSnapshot, kids_of};

use crate::fault::BatchFault;
use std::alloc::Global;
use std::collections::BTreeMap;
use swh_base::{Kind, Memory, Name, Namer};
use swh_closure::Closed;
use swh_object::Object;

/// Names, and the kind of the first of them that has an id.
#[derive(Drop)]
pub struct Names {
    pub first: BTreeMap<[u8; 20], Kind>,
    pub all: Closed,
}

/// No names.
fn no_names(alloc: Global) -> Names
    ensures { KnowsNames [] result }
{
    Names {
        first: BTreeMap::new(alloc),
        all: Closed::new(alloc),
    }
}

/// Leads an id to the kind of its name, unless it leads to one already.
fn lead(first: &mut BTreeMap<[u8; 20], Kind>, name: Name) -> Result<(), Memory>
    ensures { OnOk result (LeadsFirst name first.old.entries first.new.entries) }
{
    if first.contains_key(&name.id) {
        return Ok(());
    }
    first.insert(name.id, name.kind)?;
    Ok(())
}

/// Adds a name behind those that are known.
fn add_name(names: &mut Names, name: Name) -> Result<(), Memory>
    ensures { (before : List AnyName) → KnowsNames before names.old
        → OnOk result (KnowsNames (before ++ name ∷ []) names.new) }
{
    lead(&mut names.first, name)?;
    names.all.add(name)?;
    Ok(())
}

/// What is known of objects: their names, and the names of their children, in the order of the objects.
#[derive(Drop)]
pub struct Known {
    pub names: Names,
    pub kids: Vec<Name>,
}

/// No object is known.
pub fn no_objects(alloc: Global) -> Known
    ensures { KnowsObjects [] (knowing result) }
{
    Known {
        names: no_names(alloc),
        kids: Vec::new(alloc),
    }
}

/// Adds an object behind those that are known.
pub fn add_object<N: Namer>(known: &mut Known, object: &Object<N>) -> Result<(), Memory>
    ensures { (before : List Entry) → KnowsObjects before (knowing known.old)
        → OnOk result (KnowsObjects (before ++ object.now ∷ []) (knowing known.new)) }
{
    let name = object.name();
    add_name(&mut known.names, name)?;
    known.kids.extend_from_slice(object.children())?;
    Ok(())
}

/// What is known of these objects.
pub fn known_of<N: Namer>(alloc: Global, objects: &[Object<N>]) -> Result<Known, Memory>
    ensures known { IfOk result (λ known. KnowsObjects objects.now (knowing known)) }
    ensures good { OnOk result (AllByRecursion (IsObject N.id_of) objects.now) }
{
    let mut known = no_objects(alloc);
    for object in objects {
        let _name = object.name();
        add_object(&mut known, object)?;
    }
    Ok(known)
}

/// The first of these ids that no name has.
fn lacking_id(first: &BTreeMap<[u8; 20], Kind>, ids: &[[u8; 20]]) -> Option<[u8; 20]>
    ensures some { IfSome result (IsFirstLacking (HasIdIn first.now.entries) ids.now) }
    ensures none { IfNone result (AllByRecursion (HasIdIn first.now.entries) ids.now) }
{
    for id in ids {
        if !first.contains_key(id) {
            return Some(*id);
        }
    }
    None
}

/// The first of these children that is not among the names.
fn lacking_name(names: &Closed, kids: &[Name]) -> Option<Name>
    ensures some { IfSome result (IsFirstLacking (Contains names.now) kids.now) }
    ensures none { IfNone result (AllByRecursion (Contains names.now) kids.now) }
{
    for kid in kids {
        if !names.contains(kid) {
            return Some(*kid);
        }
    }
    None
}

/// The first id that no name has, among those of refs and then of the children that are known; a child's name has its kind
/// too.
fn lacking(known: &Known, ids: &[[u8; 20]]) -> Option<[u8; 20]>
    ensures some { (objects : List Entry) → known.now.kids.items ≡ kids_of objects
        → IfSome result (LacksIn known.now.names ids.now objects) }
    ensures refs { IfNone result (AllByRecursion (HasIdIn known.now.names.first.entries) ids.now) }
    ensures kids { IfNone result (AllByRecursion (Contains known.now.names.all) known.now.kids.items) }
{
    if let Some(id) = lacking_id(&known.names.first, ids) {
        return Some(id);
    }
    match lacking_name(&known.names.all, known.kids.as_slice()) {
        Some(kid) => Some(kid.id),
        None => None,
    }
}

/// Checks that these ids of refs and all children of the objects that are known are among the names of these objects.
pub fn check_names(known: &Known, ids: &[[u8; 20]]) -> Result<(), BatchFault>
    ensures ids { OnOk result (AllByRecursion (HasIdIn known.now.names.first.entries) ids.now) }
    ensures kids { (objects : List Entry) → KnowsObjects objects (knowing known.now)
        → OnOk result (AllByRecursion (HasChildrenAmong known.now.names.all) objects) }
    ensures err { (objects : List Entry) → KnowsObjects objects (knowing known.now) → (faults : ℕ)
        → IfErr result (Fails (Unit {0}) (MayBreakSnapshot objects) (LacksSome (names_of objects) ids.now objects)
        faults faults) }
    ensures quiet { IsErrOf result NotRead → ⊥ }
{
    match lacking(known, ids) {
        Some(id) => Err(BatchFault::NoObject { id }),
        None => Ok(()),
    }
}
