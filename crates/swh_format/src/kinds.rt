//! The kinds of records, each one list of fields, and the bytes that stand for kinds: in a record of the ledger, and in
//! the store before an object's body. specs/Kinds.antt says the same.
ghost use Rattle.std.specs.Prelude.{◌≡◌, ◌↔◌, IsTrue};
ghost use Rattle.swh_format.specs.Kinds.{byte_of, choices, payload_fields};
ghost use Rattle.swh_format.specs.Fields.{IsAmong};

/// What a byte may be.
#[derive(Clone, Copy)]
pub enum Choice {
    /// The kind of a record.
    Record,
    /// The kind of a visit.
    Visit,
    /// The status that a visit is given.
    Status,
    /// Whether a snapshot follows.
    Snapshot,
    /// The kind of an object.
    Object,
}

/// A field.
#[derive(Clone, Copy)]
pub enum Field {
    /// A number in four bytes, the highest first.
    Four,
    /// A number in eight bytes, the highest first.
    Eight,
    /// One of these bytes.
    Byte(Choice),
    /// The twenty bytes of an id.
    Id,
    /// A byte 0, or a byte 1 and an id.
    Snapshot,
}

/// A kind of record.
#[derive(Clone, Copy, Debug, PartialEq, Eq)]
pub enum RecordKind {
    /// A batch of objects is added.
    Batch,
    /// A visit is opened.
    Open,
    /// A visit gets a status.
    Mark,
}

// The fields of each kind's payload, which begins with who wrote it.
const BATCH: [Field; 4] = [Field::Four, Field::Eight, Field::Eight, Field::Four];

const OPEN: [Field; 3] = [Field::Four, Field::Byte(Choice::Visit), Field::Eight];

const MARK: [Field; 4] = [
    Field::Four,
    Field::Byte(Choice::Status),
    Field::Eight,
    Field::Snapshot,
];

/// The fields in the payload of a record whose kind is this byte.
pub fn fields_of_payload(kind: u8) -> &'static [Field]
    ensures { result.now ≡ payload_fields kind }
{
    match kind {
        b'B' => &BATCH,
        b'O' => &OPEN,
        _ => &MARK,
    }
}

/// A record's kind as a byte.
pub fn record_byte(kind: RecordKind) -> u8
    ensures { result ≡ byte_of kind }
{
    match kind {
        RecordKind::Batch => b'B',
        RecordKind::Open => b'O',
        RecordKind::Mark => b'T',
    }
}

/// Whether a byte may stand there.
pub fn may_stand(choice: Choice, byte: u8) -> bool
    ensures { IsTrue result ↔ IsAmong byte (choices choice) }
{
    match choice {
        Choice::Record => byte == b'B' || byte == b'O' || byte == b'T',
        Choice::Visit => byte == 1 || byte == 2 || byte == 3,
        Choice::Status => byte == 2 || byte == 3 || byte == 4 || byte == 5 || byte == 6,
        Choice::Snapshot => byte == 0 || byte == 1,
        Choice::Object => byte == 1 || byte == 2 || byte == 3 || byte == 4 || byte == 5,
    }
}
