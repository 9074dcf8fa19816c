// The charts of a sheet: read into an array, and found by index in a lent slice of them.
#![tactic(auto)]

ghost use Rattle.std.specs.Prelude.{◌≡◌, ◌+◌, ◌*◌, ◌<◌, ◌≤◌, length, get_or, take};
ghost use Rattle.charts.specs.Charts.{no_chart, charts_at};

use inspect::Chart;

// The n charts that start at a place, in front; what fills the rest of the array is left open.
pub fn read_charts(s: &[u8], at: usize, n: usize) -> [Chart; 256]
    requires { (at + 8 * n ≤ length s.now) × (n ≤ 256) }
    ensures { (take n result ≡ charts_at s.now at n) × (length result ≡ 256) }
{
    let none = Chart {
        n_objects: 0,
        n_hold_notes: 0,
    };
    let mut charts = [none; 256];
    for i in 0..n {
        charts[i] = records::read_chart(s, at + 8 * i);
    }
    charts
}

// A row finds its chart in a lent list of chart records.
pub fn chart_at(charts: &[Chart], i: usize) -> Chart
    requires { i < length charts.now }
    ensures { result ≡ get_or charts.now i no_chart }
{
    charts[i]
}
