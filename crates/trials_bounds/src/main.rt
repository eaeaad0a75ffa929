// The two bounds of lists whose bounds are known: document 01's starred lists and refusals, Mycielski's and the queens' graphs, the empty and the
// complete list of 64. A line for each: the clique bound, then the Mycielskian. What it writes is held to the file stdout; tests/bound_lists.py has
// the constructions that the rows come from.
#![tactic(auto)]

use bounds::Bound;
use refusals::{Invalid, Refusal};
use std::io;

fn tell(rt: &impl Print, bound: Result<Bound, Invalid>) -> io::Result<()> {
    match bound {
        Ok(bound) => print!(rt; " {}", bound.size),
        Err(why) => {
            print!(rt;
                " refused {} row {}",
                Refusal::from(why).number(),
                why.row()
            )
        }
    }
}

fn show(rt: &impl Print, name: &str, rows: &[u64]) -> io::Result<()> {
    print!(rt; "{name}")?;
    tell(rt, bounds::clique_bound(rows))?;
    tell(rt, bounds::mycielskian_bound(rows))?;
    println!(rt)
}

// The starred lists of document 01's table.
fn starred(rt: &impl Print) -> io::Result<()> {
    let none = [0u64; 0];
    show(rt, "n = 0:", &none)?;
    show(rt, "n = 1:", &[0])?;
    show(rt, "n = 2, none:", &[0, 0])?;
    show(rt, "n = 2, 0-1:", &[2, 1])?;
    show(rt, "n = 3, none:", &[0, 0, 0])?;
    show(rt, "0-1, 1-2:", &[2, 5, 2])?;
    show(rt, "0-1, 1-2, 2-3, 0-3:", &[10, 5, 10, 5])?;
    show(rt, "0-1, 1-2, 2-3, 3-4, 0-4:", &[18, 5, 10, 20, 9])
}

// Its refusals.
fn refusals_of_rows(rt: &impl Print) -> io::Result<()> {
    let many = [0u64; 65];
    show(rt, "65 rows:", &many)?;
    show(rt, "2:", &[2])?;
    show(rt, "1:", &[1])?;
    show(rt, "2, 0:", &[2, 0])
}

// The Mycielskian of the five-cycle: no triangle, and four sittings.
fn myciel3(rt: &impl Print) -> io::Result<()> {
    let rows = [594, 165, 330, 660, 297, 1042, 1029, 1034, 1044, 1033, 992];
    show(rt, "myciel3:", &rows)
}

// The Mycielskian of that: no triangle, and five sittings.
fn myciel4(rt: &impl Print) -> io::Result<()> {
    let rows = [
        1217106, 338085, 676170, 1352340, 608553, 2135058, 2108421, 2118666, 2139156, 2116617,
        2032608, 4194898, 4194469, 4194634, 4194964, 4194601, 4195346, 4195333, 4195338, 4195348,
        4195337, 4195296, 4192256,
    ];
    show(rt, "myciel4:", &rows)
}

// The squares of a board of five by five, which clash where a queen goes from one to the other.
fn queen5(rt: &impl Print) -> io::Result<()> {
    let rows = [
        18125950, 2697469, 4347355, 8694679, 18436879, 9605059, 19210151, 4897646, 9794300,
        19554808, 5372005, 10745066, 22506965, 11427722, 21774100, 4132009, 8297810, 15579812,
        30142793, 25682578, 31561009, 30648898, 28791940, 25045288, 16536145,
    ];
    show(rt, "queen5_5:", &rows)
}

// And of six by six.
fn queen6(rt: &impl Print) -> io::Result<()> {
    let rows = [
        35721072894,
        2722669053,
        4371600315,
        8726685495,
        17469885999,
        36013509663,
        18405932931,
        36811865927,
        4904513230,
        8752057820,
        18561076216,
        37121886192,
        9748603077,
        19497210314,
        39010939797,
        10375886634,
        19677773332,
        39338507304,
        5435306313,
        10870878866,
        22798984548,
        45581453961,
        22426912018,
        43763304996,
        4262220369,
        8541480098,
        16025999620,
        30995030600,
        60932834449,
        52072450338,
        66623673441,
        65618389122,
        63591301380,
        59536609800,
        51410707536,
        34101938337,
    ];
    show(rt, "queen6_6:", &rows)
}

// Every two of 64 clash.
fn complete(rt: &impl Print) -> io::Result<()> {
    let rows = [
        18446744073709551614,
        18446744073709551613,
        18446744073709551611,
        18446744073709551607,
        18446744073709551599,
        18446744073709551583,
        18446744073709551551,
        18446744073709551487,
        18446744073709551359,
        18446744073709551103,
        18446744073709550591,
        18446744073709549567,
        18446744073709547519,
        18446744073709543423,
        18446744073709535231,
        18446744073709518847,
        18446744073709486079,
        18446744073709420543,
        18446744073709289471,
        18446744073709027327,
        18446744073708503039,
        18446744073707454463,
        18446744073705357311,
        18446744073701163007,
        18446744073692774399,
        18446744073675997183,
        18446744073642442751,
        18446744073575333887,
        18446744073441116159,
        18446744073172680703,
        18446744072635809791,
        18446744071562067967,
        18446744069414584319,
        18446744065119617023,
        18446744056529682431,
        18446744039349813247,
        18446744004990074879,
        18446743936270598143,
        18446743798831644671,
        18446743523953737727,
        18446742974197923839,
        18446741874686296063,
        18446739675663040511,
        18446735277616529407,
        18446726481523507199,
        18446708889337462783,
        18446673704965373951,
        18446603336221196287,
        18446462598732840959,
        18446181123756130303,
        18445618173802708991,
        18444492273895866367,
        18442240474082181119,
        18437736874454810623,
        18428729675200069631,
        18410715276690587647,
        18374686479671623679,
        18302628885633695743,
        18158513697557839871,
        17870283321406128127,
        17293822569102704639,
        16140901064495857663,
        13835058055282163711,
        9223372036854775807,
    ];
    show(rt, "n = 64, all edges:", &rows)
}

fn main(rt: HostRuntime) -> io::Result<()> {
    starred(&rt)?;
    refusals_of_rows(&rt)?;
    myciel3(&rt)?;
    myciel4(&rt)?;
    queen5(&rt)?;
    queen6(&rt)?;
    let none = [0u64; 64];
    show(&rt, "n = 64, none:", &none)?;
    complete(&rt)
}
