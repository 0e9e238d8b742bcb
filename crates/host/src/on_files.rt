// Checker and converter on block files: "Our C host calls checker and converter on byte slices holding such files."
ghost use Rattle.std.specs.Prelude.{◌≡◌, length};
ghost use Rattle.tables.specs.Answer.{host_number};
ghost use Rattle.files.specs.Files.{check_files, convert_files, plan_written};

use crate::inner;

#[unsafe(no_mangle)]
pub extern "C" fn gigorchid_check_files(
    n: u32,
    k: u32,
    corridor: &[u8],
    demands: &[u8],
    record: &[u8],
) -> u32
    ensures { result ≡ host_number (check_files n k corridor.now demands.now «record».now) }
{
    let answer = files::check_files(n, k, corridor, demands, record);
    inner::number(answer)
}

#[unsafe(no_mangle)]
pub extern "C" fn gigorchid_convert_files(
    n: u32,
    k: u32,
    corridor: &[u8],
    demands: &[u8],
    record: &[u8],
    plan: &mut [u8],
) -> u32
    ensures answered { result ≡ host_number (convert_files n k corridor.now demands.now «record».now (length plan.old)) }
    ensures written { plan.new ≡ plan_written n k corridor.now demands.now «record».now plan.old }
{
    let answer = files::convert_files(n, k, corridor, demands, record, plan);
    inner::number(answer)
}
