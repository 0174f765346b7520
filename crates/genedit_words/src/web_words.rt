//! The word of a web port: `[ADDRESS:]Q`.

ghost use Rattle.std.specs.Prelude.{◌≡◌, option_map};
ghost use Rattle.genedit_words.specs.WebWords.{place_at, port_spelled, web_spelled};

use text_scan::number;

/// The address of this machine that a text names, if it names one, and the port of it.
pub(crate) fn web_place(text: &str) -> Option<(Option<&str>, u16)>
    ensures { option_map (λ place. record { address = option_map (λ s. s.now) place.0; port = place.1 }) result ≡ web_spelled text.now }
{
    match text.rsplit_once(':') {
        Some((address, digits)) => place_at(address, digits),
        None => {
            let port = port_spelled(text)?;
            Some((None, port))
        }
    }
}

/// A port of an address, which is not empty.
fn place_at<'a>(address: &'a str, digits: &str) -> Option<(Option<&'a str>, u16)>
    ensures { option_map (λ place. record { address = option_map (λ s. s.now) place.0; port = place.1 }) result ≡ place_at address.now digits.now }
{
    if address.is_empty() {
        return None;
    }
    let port = port_spelled(digits)?;
    Some((Some(address), port))
}

/// A port: decimal digits alone, so that a sign is none.
fn port_spelled(digits: &str) -> Option<u16>
    ensures { result ≡ port_spelled digits.now }
{
    let port = number(65_535, digits.as_bytes())? as u16;
    Some(port)
}
