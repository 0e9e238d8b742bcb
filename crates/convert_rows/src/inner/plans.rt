// The converter's plan: the settings of one step, in the row of the plan.
ghost use Rattle.std.specs.Prelude.{◌≡◌, ◌+◌, ◌*◌, ◌≤◌, ◌<◌, set};
ghost use Rattle.settings.specs.Setting.{rate_in, limit_in};
ghost use Rattle.lists.specs.Fits.{RowFits, NodeIn};
ghost use Rattle.convert_rows.specs.Rows.{setting_in, plan_row, RowsKept, SentKept};

use lists::inner::corridor::Corridor;
use lists::inner::demands::Demand;
use lists::inner::record::Row;
use lists::inner::rows;
use road::Speed;
use settings::Setting;

// The setting of node i that gives a row's flows from its state.
pub fn setting_at(corridor: Corridor<'_>, demand: Demand<'_>, row: Row<'_>, i: usize) -> Setting
    requires rows_kept { RowsKept row.width corridor.words.now demand.row.now row.words.now corridor.links
        × SentKept row.width row.words.now corridor.links }
    requires i_le_links { i ≤ corridor.links }
    ensures { result
        ≡ setting_in row.entry.width corridor.entry.words.now demand.entry.row.now demand.entry.downstream.0 row.entry.words.now i }
{
    settings::inner::setting_for(corridor.junction(demand, row, i), row.flows(i))
}

// A setting's rate and limit, stored as the words of node i: a full node posts its full speed, a held one its limit.
fn put_setting(out: &mut [u32], i: usize, setting: Setting, full: Speed)
    requires { NodeIn 2 out.old i }
    ensures { out.new ≡ set (set out.old (i * 2) (rate_in setting)) (i * 2 + 1) (limit_in full.0 setting) }
{
    match setting {
        Setting::Full(rate) => rows::put_two(out, i, rate.0, full.0),
        Setting::Held(rate, limit) => rows::put_two(out, i, rate.0, limit.0),
    }
}

// The plan's row of a step.
pub fn plan_row(corridor: Corridor<'_>, demand: Demand<'_>, row: Row<'_>, out: &mut [u32])
    requires rows_kept { RowsKept row.width corridor.words.now demand.row.now row.words.now corridor.links
        × SentKept row.width row.words.now corridor.links }
    requires row_fits { RowFits 2 out.old corridor.links }
    ensures { out.new
        ≡ plan_row row.entry.width corridor.entry.words.now corridor.entry.links demand.entry.row.now demand.entry.downstream.0
        row.entry.words.now }
{
    for i in 0..corridor.nodes() {
        let setting = setting_at(corridor, demand, row, i);
        put_setting(out, i, setting, corridor.link(i).full_speed);
    }
}
