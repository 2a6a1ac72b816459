// The kinds that a byte of a reply tells: faults, hardware, QML interface. Ports `FaultCode`, `HwType`
// and `QmlHw` of src/command.rs.
#![tactic(auto)]

ghost use Rattle.std.specs.Prelude.{◌≡◌};
ghost use Rattle.codes.specs.Codes.{fault_of, fault_number, hw_type_of, hw_type_number, qml_hw_of, qml_hw_number};

// An error condition or hardware failure that a controller reports.
#[derive(Clone, Copy, Debug, Default, PartialEq, Eq)]
pub enum FaultCode {
    #[default]
    None = 0,
    OverVoltage = 1,
    UnderVoltage = 2,
    Drv = 3,
    AbsOverCurrent = 4,
    OverTempFet = 5,
    OverTempMotor = 6,
    GateDriverOverVoltage = 7,
    GateDriverUnderVoltage = 8,
    McuUnderVoltage = 9,
    BootingFromWatchdogReset = 10,
    EncoderSpi = 11,
    EncoderSinCosBelowMinAmplitude = 12,
    EncoderSinCosAboveMaxAmplitude = 13,
    FlashCorruption = 14,
    HighOffsetCurrentSensor1 = 15,
    HighOffsetCurrentSensor2 = 16,
    HighOffsetCurrentSensor3 = 17,
    UnbalancedCurrents = 18,
    Brk = 19,
    ResolverLot = 20,
    ResolverDos = 21,
    ResolverLos = 22,
    FlashCorruptionAppCfg = 23,
    FlashCorruptionMcCfg = 24,
    EncoderNoMagnet = 25,
    EncoderMagnetTooStrong = 26,
    PhaseFilter = 27,
    EncoderFault = 28,
    LvOutputFault = 29,
    Unknown = 255,
}

// What the hardware is.
#[derive(Clone, Copy, Debug, Default, PartialEq, Eq)]
pub enum HwType {
    #[default]
    Vesc = 0,
    VescBms = 1,
    CustomModule = 2,
    Unknown = 255,
}

// Which QML interface the hardware brings.
#[derive(Clone, Copy, Debug, Default, PartialEq, Eq)]
pub enum QmlHw {
    #[default]
    None = 0,
    Embedded = 1,
    Fullscreen = 2,
    Unknown = 255,
}

// The faults by their bytes.
const FAULT_CODES: [FaultCode; 30] = [
    FaultCode::None,
    FaultCode::OverVoltage,
    FaultCode::UnderVoltage,
    FaultCode::Drv,
    FaultCode::AbsOverCurrent,
    FaultCode::OverTempFet,
    FaultCode::OverTempMotor,
    FaultCode::GateDriverOverVoltage,
    FaultCode::GateDriverUnderVoltage,
    FaultCode::McuUnderVoltage,
    FaultCode::BootingFromWatchdogReset,
    FaultCode::EncoderSpi,
    FaultCode::EncoderSinCosBelowMinAmplitude,
    FaultCode::EncoderSinCosAboveMaxAmplitude,
    FaultCode::FlashCorruption,
    FaultCode::HighOffsetCurrentSensor1,
    FaultCode::HighOffsetCurrentSensor2,
    FaultCode::HighOffsetCurrentSensor3,
    FaultCode::UnbalancedCurrents,
    FaultCode::Brk,
    FaultCode::ResolverLot,
    FaultCode::ResolverDos,
    FaultCode::ResolverLos,
    FaultCode::FlashCorruptionAppCfg,
    FaultCode::FlashCorruptionMcCfg,
    FaultCode::EncoderNoMagnet,
    FaultCode::EncoderMagnetTooStrong,
    FaultCode::PhaseFilter,
    FaultCode::EncoderFault,
    FaultCode::LvOutputFault,
];

impl From<u8> for FaultCode {
    ghost from_gives = { λ byte fault. fault ≡ fault_of byte };

    #[tactic(auto, unfolding(crate::specs::Codes::fault_of))]
    fn from(byte: u8) -> Self {
        match FAULT_CODES.get(byte as usize) {
            Some(fault) => *fault,
            None => FaultCode::Unknown,
        }
    }
}

impl From<u8> for HwType {
    ghost from_gives = { λ byte hw. hw ≡ hw_type_of byte };

    #[tactic(auto, unfolding(crate::specs::Codes::hw_type_of))]
    fn from(byte: u8) -> Self {
        match byte {
            0 => HwType::Vesc,
            1 => HwType::VescBms,
            2 => HwType::CustomModule,
            _ => HwType::Unknown,
        }
    }
}

// As `HwType`, with other names: written out, because one generic form would have to be given the names.
impl From<u8> for QmlHw {
    ghost from_gives = { λ byte qml. qml ≡ qml_hw_of byte };

    #[tactic(auto, unfolding(crate::specs::Codes::qml_hw_of))]
    fn from(byte: u8) -> Self {
        match byte {
            0 => QmlHw::None,
            1 => QmlHw::Embedded,
            2 => QmlHw::Fullscreen,
            _ => QmlHw::Unknown,
        }
    }
}

// And back: the numbers of the Rust, 255 for the unknown. One `From` for each kind, as Rust asks.
impl From<FaultCode> for u8 {
    ghost from_gives = { λ fault byte. byte ≡ fault_number fault };

    fn from(fault: FaultCode) -> u8 {
        fault as u8
    }
}

impl From<HwType> for u8 {
    ghost from_gives = { λ hw byte. byte ≡ hw_type_number hw };

    fn from(hw: HwType) -> u8 {
        hw as u8
    }
}

impl From<QmlHw> for u8 {
    ghost from_gives = { λ qml byte. byte ≡ qml_hw_number qml };

    fn from(qml: QmlHw) -> u8 {
        qml as u8
    }
}
