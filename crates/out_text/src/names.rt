ghost use Rattle.std.specs.Prelude.{◌≡◌};
ghost use Rattle.out_text.specs.OutLines.{fault_name_of, name_of};

use client_ports::Refusal;
use packet_read::PacketFault;

/// The name of a packet's fault in the output.
fn fault_name(fault: PacketFault) -> &'static str
    ensures { result.now ≡ fault_name_of fault }
{
    match fault {
        PacketFault::Empty => "Empty",
        PacketFault::Version => "Version",
        PacketFault::Kind => "Kind",
        PacketFault::Short => "Short",
        PacketFault::Long => "Long",
        PacketFault::Time => "Time",
        PacketFault::Buttons => "Buttons",
        PacketFault::Count => "Count",
    }
}

/// The name of a refusal in the output.
pub fn refusal_name(why: Refusal) -> &'static str
    ensures { result.now ≡ name_of why }
{
    match why {
        Refusal::Packet(fault) => fault_name(fault),
        Refusal::Already => "Already",
        Refusal::Full => "Full",
        Refusal::Crowded => "Crowded",
        Refusal::NotJoined => "NotJoined",
        Refusal::Leaving => "Leaving",
        Refusal::Old => "Old",
        Refusal::Many => "Many",
    }
}
