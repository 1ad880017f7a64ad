// Laws of the texts of packets.
ghost use Rattle.packet_text.specs.Laws.{ReadsBack, AvailableIsAmong};

/// What is written of packets of 1 to 65,527 bytes reads back as these packets.
pub fn written_reads_back()
    ensures { ReadsBack }
{}

/// What a place gave is among the texts that its lines may have.
pub fn given_is_among()
    ensures { AvailableIsAmong }
{}
