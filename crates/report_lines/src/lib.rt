// The lines of a record's report, key by key, counted or written.
#![tactic(auto)]

ghost use Rattle.std.specs.Prelude.{◌≡◌, take, drop};
ghost use Rattle.draw.specs.Pen.{sheet, drawn};
ghost use Rattle.line.specs.Line.{lines_from};
ghost use Rattle.config.specs.Values.{shown};
ghost use Rattle.report_lines.specs.Values.{values};

use config::Config;
use draw::Pen;

// Keys 1 to 5.
fn put_texts(c: Config, decode: &[u8], dst: &mut [u8], pen: Pen) -> Pen
    ensures { sheet dst.new result ≡ drawn (sheet dst.old pen) (lines_from 1 (take 5 (values (shown decode.now c)))) }
{
    let user = fields::put_text(1, c.user, decode, dst, pen);
    let password = fields::put_secret(2, c.password, dst, user);
    let dbname = fields::put_text(3, c.dbname, decode, dst, password);
    let options = fields::put_text(4, c.options, decode, dst, dbname);
    fields::put_text(5, c.application_name, decode, dst, options)
}

// Keys 6 to 10.
fn put_lists(c: Config, decode: &[u8], dst: &mut [u8], pen: Pen) -> Pen
    ensures { sheet dst.new result ≡ drawn (sheet dst.old pen) (lines_from 6 (take 5 (drop 5 (values (shown decode.now c))))) }
{
    let sslmode = lines::word_line(6, fields::mode_number(c.ssl_mode), dst, pen);
    let sslnegotiation = lines::word_line(
        7,
        fields::negotiation_number(c.ssl_negotiation),
        dst,
        sslmode,
    );
    let host = fields::put_hosts(c.host, decode, dst, sslnegotiation);
    let hostaddr = fields::put_addresses(c.hostaddr, dst, host);
    fields::put_ports(c.port, dst, hostaddr)
}

// Keys 11 to 16.
fn put_times(c: Config, decode: &[u8], dst: &mut [u8], pen: Pen) -> Pen
    ensures { sheet dst.new result ≡ drawn (sheet dst.old pen) (lines_from 11 (take 6 (drop 10 (values (shown decode.now c))))) }
{
    let connect = fields::put_seconds(11, c.connect_timeout, dst, pen);
    let user = fields::put_seconds(12, c.tcp_user_timeout, dst, connect);
    let keepalives = field::put_switch(13, c.keepalives, dst, user);
    let idle = lines::number_line(14, c.keepalives_idle, dst, keepalives);
    let interval = fields::put_seconds(15, c.keepalives_interval, dst, idle);
    fields::put_retries(16, c.keepalives_retries, dst, interval)
}

// Keys 17 to 19.
fn put_words(c: Config, decode: &[u8], dst: &mut [u8], pen: Pen) -> Pen
    ensures { sheet dst.new result ≡ drawn (sheet dst.old pen) (lines_from 17 (drop 16 (values (shown decode.now c)))) }
{
    let attrs = lines::word_line(17, fields::target_number(c.target_session_attrs), dst, pen);
    let channel = lines::word_line(18, fields::binding_number(c.channel_binding), dst, attrs);
    lines::word_line(
        19,
        fields::balance_number(c.load_balance_hosts),
        dst,
        channel,
    )
}

// Every line, counted or written.
pub fn put_all(c: Config, decode: &[u8], dst: &mut [u8], pen: Pen) -> Pen
    ensures { sheet dst.new result ≡ drawn (sheet dst.old pen) (lines_from 1 (values (shown decode.now c))) }
{
    let texts = put_texts(c, decode, dst, pen);
    let lists = put_lists(c, decode, dst, texts);
    let times = put_times(c, decode, dst, lists);
    put_words(c, decode, dst, times)
}
