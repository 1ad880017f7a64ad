// Laws of the text of captures.
ghost use Rattle.pcap_packets.specs.Laws.{ByteOrderAlike, WrittenReadsBack, WrittenGivesPackets};

/// A capture whose numbers stand in the other byte order has the same text.
pub fn byte_order_alike()
    ensures { ByteOrderAlike }
{}

/// What is written of packets reads back as their lines, up to the first that has more than 65,527 bytes: there the
/// text ends with the bad line.
pub fn written_reads_back()
    ensures { WrittenReadsBack }
{}

/// What is written of packets of 1 to 65,527 bytes, one at least, gives a client these packets.
pub fn written_gives_packets()
    ensures { WrittenGivesPackets }
{}
