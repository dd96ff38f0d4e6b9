// The record of a connection's settings: a field for each key, in key order.
#![tactic(auto)]

ghost use Rattle.std.specs.Prelude.{◌≡◌};
ghost use Rattle.config.specs.Config.{defaults};

use address::{Address, Kind};
use lists::{Addresses, Host, HostKind, Hosts, Place, Ports};

// TLS configuration.
#[derive(Clone, Copy, Debug, PartialEq, Eq)]
pub enum SslMode {
    Disable,
    Prefer,
    Require,
}

// TLS negotiation configuration.
#[derive(Clone, Copy, Debug, PartialEq, Eq)]
pub enum SslNegotiation {
    Postgres,
    Direct,
}

// Properties required of a session.
#[derive(Clone, Copy, Debug, PartialEq, Eq)]
pub enum TargetSessionAttrs {
    Any,
    ReadWrite,
    ReadOnly,
}

// Channel binding configuration.
#[derive(Clone, Copy, Debug, PartialEq, Eq)]
pub enum ChannelBinding {
    Disable,
    Prefer,
    Require,
}

// Load balancing configuration.
#[derive(Clone, Copy, Debug, PartialEq, Eq)]
pub enum LoadBalanceHosts {
    Disable,
    Random,
}

// The settings: a text is the place of its bytes in the decode buffer, and what may be unset is an Option.
#[derive(Clone, Copy)]
pub struct Config {
    pub user: Option<Place>,
    pub password: Option<Place>,
    pub dbname: Option<Place>,
    pub options: Option<Place>,
    pub application_name: Option<Place>,
    pub ssl_mode: SslMode,
    pub ssl_negotiation: SslNegotiation,
    pub host: Hosts,
    pub hostaddr: Addresses,
    pub port: Ports,
    pub connect_timeout: Option<u64>,
    pub tcp_user_timeout: Option<u64>,
    pub keepalives: bool,
    pub keepalives_idle: u64,
    pub keepalives_interval: Option<u64>,
    pub keepalives_retries: Option<u32>,
    pub target_session_attrs: TargetSessionAttrs,
    pub channel_binding: ChannelBinding,
    pub load_balance_hosts: LoadBalanceHosts,
}

impl Config {
    // The defaults.
    pub fn new() -> Config
        ensures { result ≡ defaults }
    {
        let nowhere = Place { start: 0, len: 0 };
        let host = Host {
            kind: HostKind::Tcp(nowhere),
        };
        let address = Address { kind: Kind::V4(0) };
        Config {
            user: None,
            password: None,
            dbname: None,
            options: None,
            application_name: None,
            ssl_mode: SslMode::Prefer,
            ssl_negotiation: SslNegotiation::Postgres,
            host: Hosts {
                list: [host; 16],
                count: 0,
            },
            hostaddr: Addresses {
                list: [address; 16],
                count: 0,
            },
            port: Ports {
                list: [0; 16],
                count: 0,
            },
            connect_timeout: None,
            tcp_user_timeout: None,
            keepalives: true,
            keepalives_idle: 7200,
            keepalives_interval: None,
            keepalives_retries: None,
            target_session_attrs: TargetSessionAttrs::Any,
            channel_binding: ChannelBinding::Prefer,
            load_balance_hosts: LoadBalanceHosts::Disable,
        }
    }
}
