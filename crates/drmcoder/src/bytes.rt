// Settings and states as bytes.
pub use settingbytes::bytes::settings_of;
pub use statebytes::bytes::state_of;
