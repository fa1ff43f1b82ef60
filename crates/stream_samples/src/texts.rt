//! The texts of faults that a stream, a list of AVPs and an identity may have.

use dia_avp::AvpFault;
use dia_base::IdentityFault;
use dia_message::FrameFault;

fn print_frame_faults(rt: &impl Print) -> anyhow::Result<()> {
    for fault in [
        FrameFault::Version,
        FrameFault::Length,
        FrameFault::TooLong,
        FrameFault::OutOfMemory,
    ] {
        println!(rt; "{fault}")?;
    }
    Ok(())
}

fn print_avp_faults(rt: &impl Print) -> anyhow::Result<()> {
    for fault in [
        AvpFault::ShortHeader { at: 12 },
        AvpFault::LengthTooSmall { at: 4, code: 415 },
        AvpFault::Overrun { at: 16, code: 263 },
        AvpFault::TooLong,
        AvpFault::TooDeep,
        AvpFault::OutOfMemory,
    ] {
        println!(rt; "{fault}")?;
    }
    Ok(())
}

fn print_identity_faults(rt: &impl Print) -> anyhow::Result<()> {
    for fault in [
        IdentityFault::Empty,
        IdentityFault::TooLong,
        IdentityFault::BadOctet { at: 7 },
        IdentityFault::OutOfMemory,
    ] {
        println!(rt; "{fault}")?;
    }
    Ok(())
}

/// Each fault, a line each.
pub fn print_all(rt: &impl Print) -> anyhow::Result<()> {
    print_frame_faults(rt)?;
    print_avp_faults(rt)?;
    print_identity_faults(rt)
}
