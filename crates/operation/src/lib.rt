// The ten operations of the standard's CAN chapter (CAN, CAN FD, CAN XL): their fields, sizes and content rules.
// Payload bytes stay outside, in the buffer that an operation is read from or written to.
#![tactic(auto, unfolding(crate::specs::Rules::all_after, crate::specs::Rules::rules, crate::specs::Rules::legal))]

ghost use Rattle.std.specs.Prelude.{◌≡◌, ◌≤◌, ◌&&◌};
ghost use Rattle.operation.specs.Format.{head_length, data_length, configuration_length};
ghost use Rattle.operation.specs.Tables.{code_number, error_code_number, error_flag_number, status_number, configuration_kind_number, behaviour_number};
ghost use Rattle.operation.specs.Tables.{code_from, error_code_from, error_flag_from, status_from, configuration_kind_from, behaviour_from};
ghost use Rattle.operation.specs.Tables.{error_code_name, error_flag_name, status_name, configuration_kind_name, behaviour_name};
ghost use Rattle.operation.specs.Rules.{is_bit, max_id, one_of, fd_length, can_length, remote_rule, error_codes, error_flags, behaviours, legal};

// Largest IDs of 11 and 29 bits.
pub const MAX_STANDARD_ID: u32 = 2047;

pub const MAX_EXTENDED_ID: u32 = 536870911;

// A number that the table of its field does not have.
#[derive(Clone, Copy, Debug, PartialEq, Eq)]
pub struct NotInTable;

// The kind of an operation, as its first four bytes say it.
#[derive(Clone, Copy, Debug, PartialEq, Eq)]
pub enum Code {
    FormatError = 0x01,
    CanTransmit = 0x10,
    FdTransmit = 0x11,
    XlTransmit = 0x12,
    Confirm = 0x20,
    ArbitrationLost = 0x30,
    BusError = 0x31,
    Configuration = 0x40,
    Status = 0x41,
    Wakeup = 0x42,
}

impl TryFrom<u32> for Code {
    type Error = NotInTable;

    ghost try_from_gives = { λ x r. r ≡ code_from x };

    #[inline(always)]
    fn try_from(x: u32) -> Result<Code, NotInTable> {
        match x {
            0x01 => Ok(Code::FormatError),
            0x10 => Ok(Code::CanTransmit),
            0x11 => Ok(Code::FdTransmit),
            0x12 => Ok(Code::XlTransmit),
            0x20 => Ok(Code::Confirm),
            0x30 => Ok(Code::ArbitrationLost),
            0x31 => Ok(Code::BusError),
            0x40 => Ok(Code::Configuration),
            0x41 => Ok(Code::Status),
            0x42 => Ok(Code::Wakeup),
            _ => Err(NotInTable),
        }
    }
}

impl From<Code> for u32 {
    ghost from_gives = { λ code x. x ≡ code_number code };

    #[inline(always)]
    fn from(code: Code) -> u32 {
        code as u32
    }
}

// Error Code of a Bus Error.
#[derive(Clone, Copy, Debug, PartialEq, Eq)]
pub enum ErrorCode {
    BitError = 1,
    BitStuffingError = 2,
    FormError = 3,
    CrcError = 4,
    AckError = 5,
    BrokenErrorFrame = 6,
}

impl TryFrom<u32> for ErrorCode {
    type Error = NotInTable;

    ghost try_from_gives = { λ x r. r ≡ error_code_from x };

    fn try_from(x: u32) -> Result<ErrorCode, NotInTable> {
        match x {
            1 => Ok(ErrorCode::BitError),
            2 => Ok(ErrorCode::BitStuffingError),
            3 => Ok(ErrorCode::FormError),
            4 => Ok(ErrorCode::CrcError),
            5 => Ok(ErrorCode::AckError),
            6 => Ok(ErrorCode::BrokenErrorFrame),
            _ => Err(NotInTable),
        }
    }
}

impl From<ErrorCode> for u8 {
    ghost from_gives = { λ value x. x ≡ error_code_number value };

    fn from(value: ErrorCode) -> u8 {
        value as u8
    }
}

impl ErrorCode {
    pub fn name(self) -> &'static str
        ensures { result.now ≡ error_code_name self }
    {
        match self {
            ErrorCode::BitError => "BIT_ERROR",
            ErrorCode::BitStuffingError => "BIT_STUFFING_ERROR",
            ErrorCode::FormError => "FORM_ERROR",
            ErrorCode::CrcError => "CRC_ERROR",
            ErrorCode::AckError => "ACK_ERROR",
            ErrorCode::BrokenErrorFrame => "BROKEN_ERROR_FRAME",
        }
    }
}

// Error Flag of a Bus Error.
#[derive(Clone, Copy, Debug, PartialEq, Eq)]
pub enum ErrorFlag {
    Primary = 1,
    Secondary = 2,
}

// Stays: an impl a table, each with its law (try_from_gives): a trait of std has no impl for all of our enums at once.
impl TryFrom<u8> for ErrorFlag {
    type Error = NotInTable;

    ghost try_from_gives = { λ x r. r ≡ error_flag_from x };

    fn try_from(x: u8) -> Result<ErrorFlag, NotInTable> {
        match x {
            1 => Ok(ErrorFlag::Primary),
            2 => Ok(ErrorFlag::Secondary),
            _ => Err(NotInTable),
        }
    }
}

impl From<ErrorFlag> for u8 {
    ghost from_gives = { λ value x. x ≡ error_flag_number value };

    fn from(value: ErrorFlag) -> u8 {
        value as u8
    }
}

// Stays: the names of each table apart, as try_from above: each has its own clause (error_flag_name).
impl ErrorFlag {
    pub fn name(self) -> &'static str
        ensures { result.now ≡ error_flag_name self }
    {
        match self {
            ErrorFlag::Primary => "PRIMARY_ERROR_FLAG",
            ErrorFlag::Secondary => "SECONDARY_ERROR_FLAG",
        }
    }
}

// Status.
#[derive(Clone, Copy, Debug, PartialEq, Eq)]
pub enum NodeStatus {
    ErrorActive = 1,
    ErrorPassive = 2,
    BusOff = 3,
}

impl TryFrom<u8> for NodeStatus {
    type Error = NotInTable;

    ghost try_from_gives = { λ x r. r ≡ status_from x };

    fn try_from(x: u8) -> Result<NodeStatus, NotInTable> {
        match x {
            1 => Ok(NodeStatus::ErrorActive),
            2 => Ok(NodeStatus::ErrorPassive),
            3 => Ok(NodeStatus::BusOff),
            _ => Err(NotInTable),
        }
    }
}

impl From<NodeStatus> for u8 {
    ghost from_gives = { λ value x. x ≡ status_number value };

    fn from(value: NodeStatus) -> u8 {
        value as u8
    }
}

impl NodeStatus {
    pub fn name(self) -> &'static str
        ensures { result.now ≡ status_name self }
    {
        match self {
            NodeStatus::ErrorActive => "ERROR_ACTIVE",
            NodeStatus::ErrorPassive => "ERROR_PASSIVE",
            NodeStatus::BusOff => "BUS_OFF",
        }
    }
}

// Kind of a Configuration. The first three carry a baud rate, the last a behaviour.
#[derive(Clone, Copy, Debug, PartialEq, Eq)]
pub enum ConfigurationKind {
    CanBaudrate = 1,
    CanFdBaudrate = 2,
    CanXlBaudrate = 3,
    ArbitrationLostBehavior = 4,
}

impl TryFrom<u8> for ConfigurationKind {
    type Error = NotInTable;

    ghost try_from_gives = { λ x r. r ≡ configuration_kind_from x };

    fn try_from(x: u8) -> Result<ConfigurationKind, NotInTable> {
        match x {
            1 => Ok(ConfigurationKind::CanBaudrate),
            2 => Ok(ConfigurationKind::CanFdBaudrate),
            3 => Ok(ConfigurationKind::CanXlBaudrate),
            4 => Ok(ConfigurationKind::ArbitrationLostBehavior),
            _ => Err(NotInTable),
        }
    }
}

impl From<ConfigurationKind> for u8 {
    ghost from_gives = { λ value x. x ≡ configuration_kind_number value };

    fn from(value: ConfigurationKind) -> u8 {
        value as u8
    }
}

impl ConfigurationKind {
    pub fn name(self) -> &'static str
        ensures { result.now ≡ configuration_kind_name self }
    {
        match self {
            ConfigurationKind::CanBaudrate => "CAN_BAUDRATE",
            ConfigurationKind::CanFdBaudrate => "CAN_FD_BAUDRATE",
            ConfigurationKind::CanXlBaudrate => "CAN_XL_BAUDRATE",
            ConfigurationKind::ArbitrationLostBehavior => "ARBITRATION_LOST_BEHAVIOR",
        }
    }
}

// Arbitration Lost Behavior.
#[derive(Clone, Copy, Debug, PartialEq, Eq)]
pub enum LostBehavior {
    BufferAndRetransmit = 1,
    DiscardAndNotify = 2,
}

impl TryFrom<u32> for LostBehavior {
    type Error = NotInTable;

    ghost try_from_gives = { λ x r. r ≡ behaviour_from x };

    fn try_from(x: u32) -> Result<LostBehavior, NotInTable> {
        match x {
            1 => Ok(LostBehavior::BufferAndRetransmit),
            2 => Ok(LostBehavior::DiscardAndNotify),
            _ => Err(NotInTable),
        }
    }
}

impl From<LostBehavior> for u32 {
    ghost from_gives = { λ value x. x ≡ behaviour_number value };

    fn from(value: LostBehavior) -> u32 {
        value as u32
    }
}

impl LostBehavior {
    pub fn name(self) -> &'static str
        ensures { result.now ≡ behaviour_name self }
    {
        match self {
            LostBehavior::BufferAndRetransmit => "BUFFER_AND_RETRANSMIT",
            LostBehavior::DiscardAndNotify => "DISCARD_AND_NOTIFY",
        }
    }
}

// Lengths: of operations without data, and of a Format Error but for the bytes that it answers.
pub const CONFIRM_LENGTH: usize = 12;

pub const ARBITRATION_LOST_LENGTH: usize = 12;

pub const BUS_ERROR_LENGTH: usize = 15;

pub const WAKEUP_LENGTH: usize = 8;

pub const FORMAT_ERROR_HEAD: usize = 10;

// Stays: fields are numbers, since an operation may break a rule: write refuses it with 7 (write_outcome).
#[derive(Clone, Copy, Debug, PartialEq, Eq)]
pub enum Operation {
    FormatError {
        n: u16,
    },
    CanTransmit {
        id: u32,
        ide: u8,
        rtr: u8,
        dl: u16,
    },
    FdTransmit {
        id: u32,
        ide: u8,
        brs: u8,
        esi: u8,
        dl: u16,
    },
    XlTransmit {
        id: u32,
        ide: u8,
        sec: u8,
        sdt: u8,
        vcid: u8,
        af: u32,
        dl: u16,
    },
    Confirm {
        id: u32,
    },
    ArbitrationLost {
        id: u32,
    },
    BusError {
        id: u32,
        error_code: u8,
        error_flag: u8,
        is_sender: u8,
    },
    Configuration {
        kind: u8,
        value: u32,
    },
    Status {
        status: u8,
    },
    Wakeup,
}

// DL or n, and 0 where there is neither.
pub fn data_length(op: Operation) -> u16
    ensures { result ≡ data_length op }
{
    match op {
        Operation::FormatError { n } => n,
        Operation::CanTransmit { dl, .. }
        | Operation::FdTransmit { dl, .. }
        | Operation::XlTransmit { dl, .. } => dl,
        _ => 0,
    }
}

// The length of a Configuration: a behaviour, or a baud rate.
pub fn configuration_length(kind: u8) -> usize
    ensures { (result ≡ configuration_length kind) × (result ≤ 13) }
{
    if kind == ConfigurationKind::ArbitrationLostBehavior as u8 {
        10
    } else {
        13
    }
}

// The length of an operation without its data.
pub fn head_length(op: Operation) -> usize
    ensures { (result ≡ head_length op) × (result ≤ 22) }
{
    match op {
        Operation::FormatError { .. } => FORMAT_ERROR_HEAD,
        Operation::CanTransmit { .. } => 16,
        Operation::FdTransmit { .. } => 17,
        Operation::XlTransmit { .. } => 22,
        Operation::Confirm { .. } => CONFIRM_LENGTH,
        Operation::ArbitrationLost { .. } => ARBITRATION_LOST_LENGTH,
        Operation::BusError { .. } => BUS_ERROR_LENGTH,
        Operation::Configuration { kind, .. } => configuration_length(kind),
        Operation::Status { .. } => 9,
        Operation::Wakeup => WAKEUP_LENGTH,
    }
}

fn is_bit(x: u8) -> bool
    ensures { result ≡ is_bit x }
{
    x <= 1
}

// The largest ID of a Transmit, by its Ide.
fn max_id(ide: u8) -> u32
    ensures { result ≡ max_id ide }
{
    if ide == 0 {
        MAX_STANDARD_ID
    } else {
        MAX_EXTENDED_ID
    }
}

#[tactic(auto, unfolding(crate::specs::Rules::one_of, crate::specs::Rules::fd_length))]
fn is_fd_length(dl: u16) -> bool
    ensures { result ≡ fd_length dl }
{
    matches!(dl, 0..=8 | 12 | 16 | 20 | 24 | 32 | 48 | 64)
}

// Rtr is a bit, there are at most eight data bytes, and none with Rtr 1: by one comparison, since every call asks it of
// every pending frame.
fn is_can_length(rtr: u8, dl: u16) -> bool
    ensures { result ≡ (is_bit rtr && can_length dl && remote_rule rtr dl) }
{
    8 * (rtr as u32) + (dl as u32) <= 8
}

// Of any number, for an injected error too.
#[tactic(auto, using(crate::proofs::Tables::error_code_is_ok))]
pub fn is_error_code(x: u32) -> bool
    ensures { result ≡ one_of x error_codes }
{
    ErrorCode::try_from(x).is_ok()
}

#[tactic(auto, using(crate::proofs::Tables::error_flag_is_ok))]
fn is_error_flag(x: u8) -> bool
    ensures { result ≡ one_of x error_flags }
{
    ErrorFlag::try_from(x).is_ok()
}

#[tactic(auto, using(crate::proofs::Tables::behaviour_is_ok))]
pub fn is_behaviour(x: u32) -> bool
    ensures { result ≡ one_of x behaviours }
{
    LostBehavior::try_from(x).is_ok()
}

// The content rules, a function a kind.

#[tactic(auto, using(crate::proofs::Remote::can_legal))]
pub fn can_is_legal(id: u32, ide: u8, rtr: u8, dl: u16) -> bool
    ensures { result ≡ legal (Operation.CanTransmit id ide rtr dl) }
{
    is_bit(ide) & (id <= max_id(ide)) & is_can_length(rtr, dl)
}

pub fn fd_is_legal(id: u32, ide: u8, brs: u8, esi: u8, dl: u16) -> bool
    ensures { result ≡ legal (Operation.FdTransmit id ide brs esi dl) }
{
    is_bit(ide) & (id <= max_id(ide)) & is_bit(brs) & is_bit(esi) & is_fd_length(dl)
}

// SDT, VCID and AF are free.
pub fn xl_is_legal(id: u32, ide: u8, sec: u8, sdt: u8, vcid: u8, af: u32, dl: u16) -> bool
    ensures { result ≡ legal (Operation.XlTransmit id ide sec sdt vcid af dl) }
{
    is_bit(ide) & (id <= max_id(ide)) & is_bit(sec) & ((1 <= dl) & (dl <= 2048))
}

// Of Confirm and Arbitration Lost alike.
pub fn id_is_legal(id: u32) -> bool
    ensures confirm { result ≡ legal (Operation.Confirm id) }
    ensures lost { result ≡ legal (Operation.ArbitrationLost id) }
{
    id <= MAX_EXTENDED_ID
}

pub fn bus_error_is_legal(id: u32, code: u8, flag: u8, sender: u8) -> bool
    ensures { result ≡ legal (Operation.BusError id code flag sender) }
{
    (id <= MAX_EXTENDED_ID) & is_error_code(code as u32) & is_error_flag(flag) & is_bit(sender)
}

#[tactic(auto, using(crate::proofs::Tables::configuration_legal, std::proofs::lemmas::Bool::Decides::nat_tests))]
pub fn configuration_is_legal(kind: u8, value: u32) -> bool
    ensures { result ≡ legal (Operation.Configuration kind value) }
{
    match ConfigurationKind::try_from(kind) {
        Ok(ConfigurationKind::ArbitrationLostBehavior) => is_behaviour(value),
        Ok(_) => 1 <= value,
        Err(_) => false,
    }
}

#[tactic(auto, using(crate::proofs::Tables::status_legal))]
pub fn status_is_legal(status: u8) -> bool
    ensures { result ≡ legal (Operation.Status status) }
{
    NodeStatus::try_from(status).is_ok()
}
