// A line for each operation and each fault: position, kind, then the fields by their names.
// IDs, SDT, VCID, AF and data are in hexadecimal, all other numbers in decimal.
use decoder::Fault;
use lines::Line;
use operation::{
    ConfigurationKind, ErrorCode, ErrorFlag, LostBehavior, NodeStatus, NotInTable, Operation,
};
use std::io::Stdout;

const POSITION_WIDTH: usize = 6;

// Where the kind begins, and the blanks before the first field.
const KIND_COLUMN: usize = 8;

const FIELDS_COLUMN: usize = 24;

// The columns behind the longest name of a table.
const ERROR_CODE_END: usize = 70;

const ERROR_FLAG_END: usize = 105;

const CONFIGURATION_KIND_END: usize = 58;

const FAULT_END: usize = 53;

// A line with its position, ready for a kind.
pub(crate) fn begin(out: Stdout, at: usize) -> Line {
    Line::new(out)
        .decimal(at as u64, POSITION_WIDTH)
        .column(KIND_COLUMN)
}

// The parts that operations share.
trait Fields {
    // The kind, and up to the first field.
    fn kind(self, kind: &str) -> Self;

    // An ID that comes without Ide.
    fn id(self, id: u32) -> Self;

    // The ID and Ide of a Transmit. The ID is as candump shows it: three digits for Ide 0, at the end of the columns of eight for Ide 1.
    fn identifier(self, id: u32, ide: u8) -> Self;

    // A field of two hexadecimal digits.
    fn byte(self, name: &str, x: u8) -> Self;

    // A field that is a number of a table, with the standard's name of it. A number outside the table has none.
    fn named(self, field: &str, x: u32, name: Result<&str, NotInTable>) -> Self;
}

impl Fields for Line {
    fn kind(self, kind: &str) -> Line {
        self.text(kind).column(FIELDS_COLUMN)
    }

    fn id(self, id: u32) -> Line {
        self.name("ID").hex(id, 8)
    }

    fn identifier(self, id: u32, ide: u8) -> Line {
        let line = if ide == 0 {
            self.name("ID").text("     ").hex(id, 3)
        } else {
            self.id(id)
        };
        line.number("Ide", ide.into(), 1)
    }

    fn byte(self, name: &str, x: u8) -> Line {
        self.name(name).text("0x").hex(x.into(), 2)
    }

    fn named(self, field: &str, x: u32, name: Result<&str, NotInTable>) -> Line {
        self.number(field, x, 1).text(" ").text(name.unwrap_or(""))
    }
}

fn bus_error(line: Line, code: u8, flag: u8, sender: u8) -> Line {
    let error_code = ErrorCode::try_from(u32::from(code)).map(ErrorCode::name);
    let error_flag = ErrorFlag::try_from(flag).map(ErrorFlag::name);
    line.named("Error Code", code.into(), error_code)
        .column(ERROR_CODE_END)
        .named("Error Flag", flag.into(), error_flag)
        .column(ERROR_FLAG_END)
        .number("Is Sender", sender.into(), 1)
}

fn configuration(line: Line, kind: u8, value: u32) -> Line {
    let known = ConfigurationKind::try_from(kind);
    let line = line
        .named("kind", kind.into(), known.map(ConfigurationKind::name))
        .column(CONFIGURATION_KIND_END);
    if known == Ok(ConfigurationKind::ArbitrationLostBehavior) {
        let behaviour = LostBehavior::try_from(value).map(LostBehavior::name);
        line.named("behaviour", value, behaviour)
    } else {
        line.number("baud rate", value, 1)
    }
}

fn status(line: Line, status: u8) -> Line {
    let name = NodeStatus::try_from(status).map(NodeStatus::name);
    line.named("status", status.into(), name)
}

// The operation, with its data.
pub(crate) fn operation(line: Line, op: Operation, data: &[u8]) {
    let line = match op {
        Operation::FormatError { n } => line.kind("Format Error").number("n", n.into(), 1),
        Operation::CanTransmit { id, ide, rtr, dl } => line
            .kind("CAN Transmit")
            .identifier(id, ide)
            .number("Rtr", rtr.into(), 1)
            .number("DL", dl.into(), 1),
        Operation::FdTransmit {
            id,
            ide,
            brs,
            esi,
            dl,
        } => line
            .kind("CAN FD Transmit")
            .identifier(id, ide)
            .number("Brs", brs.into(), 1)
            .number("Esi", esi.into(), 1)
            .number("DL", dl.into(), 2),
        Operation::XlTransmit {
            id,
            ide,
            sec,
            sdt,
            vcid,
            af,
            dl,
        } => line
            .kind("CAN XL Transmit")
            .identifier(id, ide)
            .number("Sec", sec.into(), 1)
            .byte("SDT", sdt)
            .byte("VCID", vcid)
            .name("AF")
            .text("0x")
            .hex(af, 8)
            .number("DL", dl.into(), 4),
        Operation::Confirm { id } => line.kind("Confirm").id(id),
        Operation::ArbitrationLost { id } => line.kind("Arbitration Lost").id(id),
        Operation::BusError {
            id,
            error_code,
            error_flag,
            is_sender,
        } => bus_error(
            line.kind("Bus Error").id(id),
            error_code,
            error_flag,
            is_sender,
        ),
        Operation::Configuration { kind, value } => {
            configuration(line.kind("Configuration"), kind, value)
        }
        Operation::Status { status: x } => status(line.kind("Status"), x),
        Operation::Wakeup => line.text("Wakeup"),
    };
    line.bytes(data).end();
}

// What a fault is, in a few words.
fn words(fault: Fault) -> &'static str {
    match fault {
        Fault::TooFewLeft => "fewer than 8 bytes remain",
        Fault::BadLength => "length below 8 or past end",
        Fault::UnknownCode => "unknown code",
        Fault::WrongLength => "length not that of its kind",
        Fault::RuleBroken => "content rule broken",
    }
}

// The fault, with its bytes.
pub(crate) fn fault(line: Line, fault: Fault, bytes: &[u8]) {
    line.text("fault ")
        .decimal(fault.number().into(), 1)
        .column(FIELDS_COLUMN)
        .text("  ")
        .text(words(fault))
        .column(FAULT_END)
        .bytes(bytes)
        .end();
}
