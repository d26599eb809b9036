ghost use Rattle.std.specs.Prelude.{◌≡◌, ◌==◌, not, nat_lt, ◌&&◌};
ghost use Rattle.std.specs.List.{list_all};
ghost use Rattle.us_config.specs.Address.{is_address_text, is_host, is_port};

/// The most bytes of a host.
const LONGEST_HOST: usize = 255;

/// Whether a text is a host, a colon and a port.
///
/// A host is 1 to 255 ASCII characters other than space and colon, a port 1 to 65535 without a leading zero.
pub fn is_address(text: &str) -> bool
    ensures { result ≡ is_address_text text.now }
{
    match text.split_once(':') {
        Some((host, port)) => is_host_name(host.as_bytes()) && is_port_number(port),
        None => false,
    }
}

fn is_host_name(host: &[u8]) -> bool
    ensures { result ≡ is_host host.now }
{
    if host.is_empty() || host.len() > LONGEST_HOST {
        return false;
    }
    are_host_bytes(host)
}

fn are_host_bytes(host: &[u8]) -> bool
    ensures { result ≡ list_all (λ c. nat_lt c 128 && not (c == 32)) host.now }
{
    host.iter().all(|byte| *byte < 128 && *byte != b' ')
}

fn is_port_number(port: &str) -> bool
    ensures { result ≡ is_port port.now }
{
    let digits = port.as_bytes();
    if digits.is_empty() || digits[0] == b'0' || digits[0] == b'+' {
        return false;
    }
    match port.parse::<u16>() {
        Ok(number) => number > 0,
        Err(_) => false,
    }
}
