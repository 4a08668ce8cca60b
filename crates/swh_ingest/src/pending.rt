// The objects of a batch that was not sent yet.
use std::alloc::Global;
use swh_base::{BYTES_LIMIT, Memory, Namer, OBJECTS_LIMIT};
use swh_object::Object;
use swh_store::{Distinct, Standing};

/// Objects that wait, the same by their names, and how many bytes they have.
#[derive(Drop)]
pub struct Pending<N: Namer> {
    pub objects: Vec<Object<N>>,
    pub held: Distinct,
    pub bytes: u64,
}

impl<N: Namer> Pending<N> {
    ghost use Rattle.std.specs.Prelude.{◌≡◌, ◌↔◌, [], IfOk, IsTrue};
    ghost use Rattle.swh_ingest.specs.Sending.{BatchHasRoom, JoinsBatch};

    pub fn new(alloc: Global) -> Pending<N>
        ensures objects { result.objects.items ≡ [] }
        ensures held { result.held ≡ [] }
        ensures bytes { result.bytes ≡ 0 }
    {
        Pending {
            objects: Vec::new(alloc),
            held: Distinct::new(alloc),
            bytes: 0,
        }
    }

    /// Says whether one more object may join.
    pub fn has_room(&self) -> bool
        ensures { IsTrue result ↔ BatchHasRoom self.now }
    {
        self.objects.len() < OBJECTS_LIMIT && self.bytes <= BYTES_LIMIT
    }

    /// Lets an object join where none of its name waits, and answers how it stood to those that did.
    pub fn join(&mut self, object: Object<N>) -> Result<Standing, Memory>
        requires { BatchHasRoom self.old }
        ensures { IfOk result (JoinsBatch self.old self.new object) }
    {
        match self.held.join(object.entry().again()?)? {
            Standing::New => {
                self.bytes += object.body().len() as u64;
                self.objects.push(object)?;
                Ok(Standing::New)
            }
            Standing::Known => Ok(Standing::Known),
            Standing::Other => Ok(Standing::Other),
        }
    }
}
