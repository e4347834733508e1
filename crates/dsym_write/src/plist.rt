//! Info.plist.

ghost use Rattle.std.specs.Prelude.{◌≡◌, ◌++◌, IfOk, OnOk};
ghost use Rattle.std.specs.List.{flat_map};
ghost use Rattle.dsym_write.specs.Plist.{escaped, plist_bytes};

use ds_base::{Bytes, NoMemory};
use std::alloc::Global;

/// The text before the name.
const BEFORE_NAME: [u8; 310] = *b"<?xml version=\"1.0\" encoding=\"UTF-8\"?>\n\
    <!DOCTYPE plist PUBLIC \"-//Apple Computer//DTD PLIST 1.0//EN\" \"http://www.apple.com/DTDs/PropertyList-1.0.dtd\">\n\
    <plist version=\"1.0\">\n\
    \t<dict>\n\
    \t\t<key>CFBundleDevelopmentRegion</key>\n\
    \t\t<string>English</string>\n\
    \t\t<key>CFBundleIdentifier</key>\n\
    \t\t<string>com.apple.xcode.dsym.";

/// The text behind the name.
const BEHIND_NAME: [u8; 319] = *b"</string>\n\
    \t\t<key>CFBundleInfoDictionaryVersion</key>\n\
    \t\t<string>6.0</string>\n\
    \t\t<key>CFBundlePackageType</key>\n\
    \t\t<string>dSYM</string>\n\
    \t\t<key>CFBundleSignature</key>\n\
    \t\t<string>????</string>\n\
    \t\t<key>CFBundleShortVersionString</key>\n\
    \t\t<string>1.0</string>\n\
    \t\t<key>CFBundleVersion</key>\n\
    \t\t<string>1</string>\n\
    \t</dict>\n\
    </plist>\n";

const AMPERSAND: [u8; 5] = *b"&amp;";

const LESS: [u8; 4] = *b"&lt;";

const GREATER: [u8; 4] = *b"&gt;";

/// The text of the Info.plist of a program's bundle: `name` is the program's, without its folder.
pub fn plist_text(alloc: Global, name: &str) -> Result<Bytes, NoMemory>
    ensures { IfOk result (λ text. text ≡ plist_bytes name.now) }
{
    let mut text = Bytes::new(alloc);
    text.extend(&BEFORE_NAME)?;
    push_all_escaped(&mut text, name.as_bytes())?;
    text.extend(&BEHIND_NAME)?;
    Ok(text)
}

/// Puts a text last, whose bytes with a meaning in XML become entities.
fn push_all_escaped(text: &mut Bytes, bytes: &[u8]) -> Result<(), NoMemory>
    ensures { OnOk result (text.new ≡ text.old ++ flat_map escaped bytes.now) }
{
    for b in bytes {
        push_escaped(text, *b)?;
    }
    Ok(())
}

/// Puts a byte of a text last, the three with a meaning in XML as entities.
fn push_escaped(text: &mut Bytes, b: u8) -> Result<(), NoMemory>
    ensures { OnOk result (text.new ≡ text.old ++ escaped b) }
{
    match b {
        b'&' => text.extend(&AMPERSAND),
        b'<' => text.extend(&LESS),
        b'>' => text.extend(&GREATER),
        _ => text.push(b),
    }
}
