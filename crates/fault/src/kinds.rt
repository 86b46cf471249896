// Why a call is refused, each cause with the number by which a fault names it.
#[derive(Clone, Copy, Debug, PartialEq, Eq)]
pub enum Cause {
    BadPlan = 1,
    CatalogueFull = 2,
    FieldCount = 3,
    LinkMask = 4,
    NoCursor = 5,
    EmptyCursor = 6,
    NoField = 7,
    WrongKind = 8,
    AbsentLink = 9,
    NoPage = 10,
    CheckDiffers = 12,
    HeadTooLarge = 13,
    UndeclaredType = 14,
    ObjectTooLong = 15,
    BadLink = 16,
    NotZero = 17,
    NoAddresses = 18,
    NoObject = 19,
    PageClosed = 20,
    NoRoom = 21,
    NoType = 22,
    WrongLength = 23,
}

// A page, a cell and a field, by the numbers that a refusal is fixed to show: page 0, cell 64 and field 63 mean none.
#[derive(Clone, Copy, Debug, PartialEq, Eq)]
pub struct Place {
    pub page: u64,
    pub cell: u64,
    pub field: u64,
}

// A refusal. Cause and layer are numbers, since a store of another kind has causes and a layer of its own.
#[derive(Clone, Copy, Debug, PartialEq, Eq)]
pub struct Fault {
    pub cause: u32,
    pub layer: u32,
    pub place: Place,
    // the link by which the call came there; no Option, since a refusal is fixed to be eight numbers
    pub link: Place,
}
