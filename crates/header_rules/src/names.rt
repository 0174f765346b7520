//! Rules by their names.

ghost use Rattle.std.specs.Prelude.{◌≡◌, map, option_map};
ghost use Rattle.header_rules.specs.Names.{beside, rule_names, rule_named};

use crate::letters::is_same_name;
use generations_rule::Rule;

/// Each name with its rule's text. The names are those of Golly 3.3: of its list of named rules, its
/// help ("Algorithm: Generations" and "Algorithm: QuickLife"), and its folders Rules and Patterns; some
/// stand here with other blanks too.
const RULE_NAMES: [(&[u8], &[u8]); 46] = [
    (b"Life", b"23/3/2"),
    (b"3-4 Life", b"34/34/2"),
    (b"HighLife", b"23/36/2"),
    (b"Life without Death", b"012345678/3/2"),
    (b"Plow World", b"012345678/378/2"),
    (b"Day and Night", b"34678/3678/2"),
    (b"Diamoeba", b"5678/35678/2"),
    (b"LongLife", b"5/345/2"),
    (b"Seeds", b"/2/2"),
    (b"Persian Rug", b"/234/2"),
    (b"Replicator", b"1357/1357/2"),
    (b"Fredkin", b"02468/1357/2"),
    (b"Morley", b"245/368/2"),
    (b"Day & Night", b"34678/3678/2"),
    (b"Serviettes", b"/234/2"),
    (b"Banners", b"2367/3457/5"),
    (b"Bloomerang", b"234/34678/24"),
    (b"Brian's Brain", b"/2/3"),
    (b"Caterpillars", b"124567/378/4"),
    (b"Cooties", b"23/2/8"),
    (b"Fireworks", b"2/13/21"),
    (b"Frogs", b"12/34/3"),
    (b"Lava", b"12345/45678/8"),
    (b"Lines", b"012345/458/3"),
    (b"Star Wars", b"345/2/4"),
    (b"Sticks", b"3456/2/6"),
    (b"Transers", b"345/26/5"),
    (b"Xtasy", b"1456/2356/16"),
    (b"BriansBrain", b"/2/3"),
    (b"StarWars", b"345/2/4"),
    (b"Burst", b"0235678/3468/9"),
    (b"Coral", b"45678/3/2"),
    (b"Ebb&Flow", b"012478/36/18"),
    (b"LivingOnTheEdge", b"345/3/6"),
    (b"MeteorGuns", b"01245678/3/8"),
    (b"Nova", b"45678/2478/25"),
    (b"SediMental", b"45678/25678/4"),
    (b"Spirals", b"2/234/5"),
    (b"3-4Life", b"34/34/2"),
    (b"High Life", b"23/36/2"),
    (b"Long Life", b"5/345/2"),
    (b"DayAndNight", b"34678/3678/2"),
    (b"Day-and-Night", b"34678/3678/2"),
    (b"Brians Brain", b"/2/3"),
    (b"Brians-Brain", b"/2/3"),
    (b"Star-Wars", b"345/2/4"),
];

/// The rule of a name, capital or small.
pub fn rule_named(text: &[u8]) -> Option<Rule>
    ensures { result ≡ rule_named text.now }
{
    Rule::parse(spelling_named(text)?).ok()
}

fn spelling_named(name: &[u8]) -> Option<&'static [u8]>
    ensures { option_map (λ found. found.now) result ≡ beside rule_names name.now }
{
    spelling_beside(&RULE_NAMES, name)
}

fn spelling_beside<'a>(mut rows: &[(&[u8], &'a [u8])], name: &[u8]) -> Option<&'a [u8]>
    ensures { option_map (λ found. found.now) result ≡ beside (map (λ row. (row.0.now, row.1.now)) rows.entry.now) name.now }
{
    while let [row, rest @ ..] = rows {
        if is_same_name(row.0, name) {
            return Some(row.1);
        }
        rows = rest;
    }
    None
}
