ghost use Rattle.std.specs.Prelude.{◌≡◌, not};
ghost use Rattle.std.specs.List.{find};
ghost use Rattle.lps_batches.specs.LookAhead.{is_blank, is_skipped};

/// Whether a line, without its line feed, holds no batch: it has blanks alone, or its first other byte is `%`.
pub fn is_skipped(line: &[u8]) -> bool
    ensures { result ≡ is_skipped line.now }
{
    match first_other(line) {
        Some(first) => first == b'%',
        None => true,
    }
}

/// The first byte that is no blank.
fn first_other(line: &[u8]) -> Option<u8>
    ensures { result ≡ find (λ byte. not (is_blank byte)) line.now }
{
    line.iter().copied().find(|byte| !is_blank(*byte))
}

fn is_blank(byte: u8) -> bool
    ensures { result ≡ is_blank byte }
{
    byte == b' ' || byte == b'\t' || byte == b'\r'
}
