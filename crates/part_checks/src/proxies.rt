// Proxies: the view that each knows, and its items.
ghost use Rattle.std.specs.Prelude.{◌≡◌, length};
ghost use Rattle.lists.specs.Tests.{all_below};
ghost use Rattle.words.specs.Words.{words};
ghost use Rattle.rules.specs.Limits.{proxies};
ghost use Rattle.rules.specs.Sound.{sound_proxy};
ghost use Rattle.layout.specs.Layout.{proxy_codec};
ghost use Rattle.row_checks.specs.Rows.{key_below};
ghost use Rattle.part_checks.specs.Proxies.{proxy_sound, ProxyFit, ProxiesFit};

use layout::sizes;
use row_checks::rows;
use row_checks::rows::Whose;
use rules::constants;
use rules::settings::Settings;

fn proxy_good(settings: Settings, bounds: &[u64], p: u64, proxy: &[u8]) -> bool
    requires { ProxyFit (length bounds.now) (length proxy.now) }
    ensures { result ≡ sound_proxy (key_below bounds.now) p (proxy_codec.dec (words proxy.now)).known
        (proxy_codec.dec (words proxy.now)).items }
{
    if constants::MAX_VIEW_OR_ORDER < words::read(proxy, 0) {
        return false;
    }
    let a = 8 * sizes::ITEMS_AT;
    rows::table_good(
        settings,
        bounds,
        Whose::Proxy(p),
        &proxy[a..8 * sizes::PROXY_WORDS],
        constants::MAX_ITEMS,
    )
}

pub fn proxies_good(settings: Settings, bounds: &[u64], store: &[u8]) -> bool
    requires { ProxiesFit settings (length bounds.now) (length store.now) }
    ensures { result ≡ all_below proxies (proxy_sound settings (key_below bounds.now) (words store.now)) }
{
    for p in 0..constants::PROXIES {
        let a = 8 * sizes::proxy_at(settings, p);
        if !proxy_good(
            settings,
            bounds,
            p as u64,
            &store[a..a + 8 * sizes::PROXY_WORDS],
        ) {
            return false;
        }
    }
    true
}
