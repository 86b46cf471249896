// The words of the graph's calls.
use fault::Fault;
use page::Position;

#[derive(Clone, Copy, Debug, PartialEq, Eq)]
pub enum Call {
    Stand {
        cursor: u64,
        page: u64,
        cell: u64,
    },
    Follow {
        cursor: u64,
        field: u64,
        second: u64,
    },
    Read {
        cursor: u64,
        field: u64,
    },
    Target {
        cursor: u64,
        field: u64,
    },
    Note {
        cursor: u64,
        field: u64,
        number: u64,
    },
    Join {
        cursor: u64,
        field: u64,
        second: u64,
    },
    Part {
        cursor: u64,
        field: u64,
    },
    Add {
        cursor: u64,
        kind: u64,
        page: u64,
    },
    Leave {
        cursor: u64,
    },
    Where {
        cursor: u64,
    },
    Glance {
        cursor: u64,
        field: u64,
    },
    Slot {
        slot: u64,
    },
    Save,
}

// What a granted call answers.
#[derive(Clone, Copy, Debug, PartialEq, Eq)]
pub enum Value {
    Done,
    // of read, the number; of add, the cell; of glance as it is shown, the frame's cell
    Number(u64),
    // of where: where the object starts
    At(Position),
    // of target, and of glance in the graph: what the link names
    Names(Option<Position>),
    // of slot as it is shown: the page that the slot belongs to
    Page(Option<u64>),
    // of slot in the graph, which knows no slots
    Unsettled,
}

// What a call answers.
pub type Answer = Result<Value, Fault>;
