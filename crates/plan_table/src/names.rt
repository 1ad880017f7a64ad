// Names of connections, and traces.
ghost use Rattle.std.specs.Prelude.{◌≡◌};
ghost use Rattle.std.specs.Int.{is_in_range};
ghost use Rattle.std.specs.List.{list_all};
ghost use Rattle.plan_table.specs.NumberTests.{is_name, is_name_byte, is_sapi};

// The longest name, and the longest source access point identifier (G.709 clause 15.2).
const MOST_NAME_BYTES: usize = 32;

const MOST_SAPI_BYTES: usize = 15;

/// Whether the text is a name: 1 to 32 of a to z, 0 to 9 and -.
pub fn is_name(name: &str) -> bool
    ensures { result ≡ is_name name.now }
{
    1 <= name.len() && name.len() <= MOST_NAME_BYTES && all_name_bytes(name.as_bytes())
}

fn all_name_bytes(bytes: &[u8]) -> bool
    ensures { result ≡ list_all is_name_byte bytes.now }
{
    bytes.iter().all(|byte| is_name_byte(*byte))
}

fn is_name_byte(byte: u8) -> bool
    ensures { result ≡ is_name_byte byte }
{
    matches!(byte, b'a'..=b'z' | b'0'..=b'9' | b'-')
}

/// Whether the bytes are a source access point identifier: at most 15, each printable.
pub fn is_sapi(bytes: &[u8]) -> bool
    ensures { result ≡ is_sapi bytes.now }
{
    bytes.len() <= MOST_SAPI_BYTES && all_printable(bytes)
}

fn all_printable(bytes: &[u8]) -> bool
    ensures { result ≡ list_all (is_in_range 0x20 0x7E) bytes.now }
{
    bytes.iter().all(|byte| 0x20 <= *byte && *byte <= 0x7E)
}
