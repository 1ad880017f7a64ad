// The pages of text that the program writes by itself.
use program_words::Page;

const HELP: &str = "\
otn, a multiplexer and cross-connect for ODU0 and ODUflex over OTU2 and OTU3 lines in files (ITU-T G.709, G.7041)

usage: otn check            whether plan.toml is a plan, and of how many connections and turns
       otn run              carries plan.toml, and reports what came of it
       otn run --order N    the same, with the ports taken in an order drawn from the number N
       otn run --pcap       the same as run, with captures for clients: client-00.pcap to client-15.pcap where there
                            is no file with .in, and client-00.pcap.out to client-15.pcap.out
       otn slot K           the payload bytes of tributary slot K, 1 to 8, of each whole frame of line-0.in
       otn pull PORT K,K    what the sink of tributary port PORT, 1 to 8, on the tributary slots K, 1 to 8
                            and rising, with commas between them, emits in each turn of line-0.in
       otn protect PORT K,K T N
                            puts the better one of line-0.in, working, and line-1.in, protection, on line-0.out, of the
                            tributary of PORT and K,K, in each of T turns; N turns of a working line that is up again
                            bring it back, 0 never does
       otn bundle C,C T     puts the packets of client-CC.in, of clients C, 0 to 15 and rising, with commas between them,
                            on line-0.out, as channels in slot 1, in T turns, and tells how many it began of each
       otn unbundle T       writes the packets of channels 0 to 15, which slot 1 of line-0.in has in T turns, to
                            client-00.out to client-15.out, and how many came on each
       otn trial N          carries packets drawn from the number N through four nodes in a row, in memory
       otn --explain WORDS  what these words would do in this folder, and what is wrong with its files; it changes
                            nothing, and with no word behind it is about run
       otn --rules          the fifteen rules of a plan, and what to do where one is broken
       otn --help           this page, also by -h and help
       otn --version

All files stand in the current folder. A run reads plan.toml, line-0.in to line-3.in, and client-00.in to client-15.in
(packets, one a line, in hex). It writes the same names with .out, all twenty of which it makes empty once the plan is
accepted; a plan that is not leaves all files as they are. An output that is the file of an input is not made, and
fails. An input file that is not there has no bytes. Reports, and what slot and pull find, go to standard output. A
capture is a classic pcap file of Ethernet; editcap -F pcap makes one of a pcapng file.

A plan of one connection:
    turns = 16
    [[connection]]
    name = \"north\"
    kind = \"odu0\"
    from = { client = 0 }
    to = { line = 0, port = 1, slots = [1] }

An ODUflex has kind = \"flex\" and one slot or more. The way out: from = { line = .. } and to = { client = 0 }.

It ends with 0 done  1 unfinished  2 words  3 plan CODE at PLACE  4 plan fault  5 report fault  6 cut  7 memory.
1: too few turns, or the report says bad L: line L of a client is no packet. 2: otn --help. 3: otn --rules.
4: no plan.toml can be read here. 5: standard output failed. 6: a file failed, and the report says which is dead.
Of 1, 2, 3, 4 and 6 otn --explain with the same words says more.
";

const RULES: &str = "\
otn: plan CODE at PLACE. PLACE 0 is the top of plan.toml, 1 its first connection, 2 the second, and so on.
The rules are tried by their numbers, and the first that is broken is told: check again after each mend.
otn --explain says which value breaks it, and what would do.

 1 NotToml      the text is no TOML, no UTF-8, or longer than 1,048,576 bytes: otn --explain says the line. Lists and
                tables more than 80 deep, and numbers that are too large for their type, are refused too
 2 UnknownKey   take out the key that can't stand there: one that is misspelt; pace where from is no client or
                signal; fcs or trace where from is no client; a list of lines without version = 2
 3 MissingKey   write the key that is missing: turns at the top; name, kind, from or to of a connection; line, port
                or slots of a line end
 4 WrongKind    a value is of the wrong type; kind is odu0 or flex, signal is oci or lck, version is 1 or 2; a
                connection begins with [[connection]], not [connection]
 5 Turns        turns is 1 to 16384
 6 TooMany      a plan has 48 connections at most
 7 BadName      a name is 1 to 32 of a to z, 0 to 9 and -; a trace has at most 15 printable ASCII characters
 8 NameTwice    each name stands once
 9 BadPlace     a line is 0 to 3, a client 0 to 15, a port 1 to 8 (1 to 32 on an OTU3); from, to or both are a line;
                the numbers of a list of lines rise
10 BadSlots     slots rise, and are 1 to 8 (1 to 32 on an OTU3); an odu0 has one slot; from and to have as many
11 SlotTwice    this connection and one above it share a slot of an output line in a turn
12 PortTwice    this connection and one above it share a port of an output line in a turn
13 ClientTwice  a client is the from of one connection at most, and the to of one
14 BadPace      a pace has 1 to 64 numbers, each 15167 to 15169 (odu0), or M to 15232 * M (flex on M slots)
15 BadSpan      1 <= start <= stop <= turns; retire is for a connection with a client
";

const VERSION: &str = "otn 0.1.0";

/// The text of a page, without its last line feed.
pub fn text_of(page: Page) -> &'static str {
    match page {
        Page::Help => HELP.trim_end(),
        Page::Rules => RULES.trim_end(),
        Page::Version => VERSION,
    }
}
