// What the image's calls answer, as a status. The settings that come back are left in a list of three.
ghost use Rattle.std.specs.Prelude.{◌≡◌, ◌≤◌, length};
ghost use Rattle.spec_tables.specs.Tables.{overwrite};
ghost use Rattle.lists.specs.Values.{as_settings};
ghost use Rattle.image.specs.Values.{as_written, answer_of};
ghost use Rattle.spec_host.specs.Status.{status};
ghost use Rattle.spec_host.specs.Images.{settings_list, short_refusal, written_status, WrittenPlaced, read_status, SmallSettings, ReadPlaced, settings_left};

use host_bytes::status::{encode, encode_refusal};
use image::read::ImageRead;
use lists::refusal::Refusal;
use lists::settings::Settings;
use records::layout::image_layout;

// The status of writing: the number of bytes, or its refusal.
pub fn encode_written(written: Result<usize, Refusal>) -> u64
    requires { WrittenPlaced (as_written written) }
    ensures { result ≡ written_status (as_written written) }
{
    encode(written)
}

// 10 where the image is laid out wrong, or else 6: the list of the settings is short.
pub fn encode_short(image: &[u8]) -> u64
    ensures { result ≡ status (short_refusal image.now) 0 }
{
    match image_layout(image) {
        Ok(_) => encode_refusal(Refusal::NoRoom),
        Err(wrong) => encode_refusal(wrong.into()),
    }
}

// Leaves the three settings at the front of the list.
fn put_settings(settings: Settings, list: &mut [u32])
    requires in_bounds { 3 ≤ length list.old }
    requires small_settings { SmallSettings (as_settings settings) }
    ensures { list.new ≡ overwrite 0 (settings_list (as_settings settings)) list.old }
{
    list[..3].copy_from_slice(&[
        settings.strategy as u32,
        settings.leaf_minimum as u32,
        settings.maximum_depth as u32,
    ]);
}

// The status of reading, the number of nodes or its refusal. Leaves the settings that were read in the list.
pub fn encode_read(read: Result<ImageRead, Refusal>, settings: &mut [u32]) -> u64
    requires in_bounds { 3 ≤ length settings.old }
    requires read_placed { ReadPlaced (answer_of read) }
    ensures status { result ≡ read_status (answer_of read) }
    ensures settings { settings.new ≡ settings_left (answer_of read) settings.old }
{
    match read {
        Ok(image) => {
            put_settings(image.settings, settings);
            image.nodes as u64
        }
        Err(refusal) => encode_refusal(refusal),
    }
}
