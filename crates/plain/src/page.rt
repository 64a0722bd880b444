ghost use Rattle.std.specs.Prelude.{◌≡◌};
ghost use Rattle.plain.specs.Page.{page};

/// The page that shows all services.
pub const PAGE: &[u8] = b"\
    <!doctype html>\n\
    <html lang=\"en\"><head>\n\
    <meta charset=\"utf-8\">\n\
    <meta name=\"viewport\" content=\"width=device-width, initial-scale=1\">\n\
    <title>healthd</title>\n\
    <style>\n\
    :root {\n\
    \x20 color-scheme: light dark;\n\
    \x20 --back: #fff; --front: #1b1f24; --quiet: #57606a; --line: #d0d7de; --panel: #f6f8fa;\n\
    \x20 --serving: #116329; --not_serving: #b3121d; --unknown: #7d4e00; --absent: #57606a; --lost:\
    \x20#6e2fb5;\n\
    }\n\
    @media (prefers-color-scheme: dark) {\n\
    \x20 :root {\n\
    \x20   --back: #0d1117; --front: #e6edf3; --quiet: #9da7b3; --line: #30363d; --panel: #161b22;\
    \n\
    \x20   --serving: #56d364; --not_serving: #ff8e86; --unknown: #e3b341; --absent: #9da7b3; --los\
    t: #c9a5ff;\n\
    \x20 }\n\
    }\n\
    body { margin: 0; background: var(--back); color: var(--front); font: 1rem/1.5 system-ui, sans-\
    serif; }\n\
    main { max-width: 72rem; margin: 0 auto; padding: 1rem; }\n\
    h1 { margin: 0; font-size: 1.5rem; overflow-wrap: anywhere; }\n\
    h2 { margin: 2rem 0 .5rem; font-size: 1.1rem; } p { margin: .25rem 0; }\n\
    .quiet { color: var(--quiet); font-size: .875rem; }\n\
    .hidden { position: absolute; width: 1px; height: 1px; overflow: hidden; clip-path: inset(50%);\
    \x20white-space: nowrap; }\n\
    #sign { margin: 1rem 0; padding: .5rem .75rem; border-left: .35rem solid var(--serving); backgr\
    ound: var(--panel); }\n\
    #sign.lost { border-color: var(--lost); color: var(--lost); font-weight: 600; }\n\
    table { width: 100%; border-collapse: collapse; }\n\
    th, td { padding: .5rem .75rem .5rem 0; border-bottom: 1px solid var(--line); text-align: left;\
    \x20vertical-align: middle; }\n\
    thead th { color: var(--quiet); font-size: .875rem; font-weight: 600; } thead th:last-child { w\
    idth: 40%; }\n\
    tbody th, #changes b, .status { font-weight: 600; overflow-wrap: anywhere; }\n\
    .status { white-space: nowrap; --mark: \"?\"; }\n\
    .status::before { display: inline-block; width: 1.25em; text-align: left; content: var(--mark) \
    / \"\"; }\n\
    .status.serving { color: var(--serving); --mark: \"\\25cf\"; } .status.not_serving { color: var\
    (--not_serving); --mark: \"\\25b2\"; }\n\
    .status.unknown { color: var(--unknown); } .status.absent { color: var(--absent); --mark: \"\\2\
    5cb\"; }\n\
    .status.lost { color: var(--lost); --mark: \"\\2715\"; }\n\
    time { white-space: nowrap; font-variant-numeric: tabular-nums; }\n\
    .strip { display: flex; gap: 1px; min-width: 15rem; height: 1.25rem; overflow: hidden; forced-c\
    olor-adjust: none; }\n\
    .strip i { flex: 0 1 0; min-width: 2px; }\n\
    .strip .serving { background: var(--serving); } .strip .not_serving { background: var(--not_ser\
    ving); }\n\
    .strip .unknown { background: var(--unknown); } .strip .absent { background: var(--line); }\n\
    .strip .lost { background: repeating-linear-gradient(45deg, var(--lost) 0 2px, var(--back) 2px \
    5px); }\n\
    #changes { margin: 0; padding: 0; list-style: none; }\n\
    #changes li { padding: .25rem 0; border-bottom: 1px solid var(--line); }\n\
    input { width: 1.25rem; height: 1.25rem; margin: 0; vertical-align: middle; accent-color: var(-\
    -serving); }\n\
    @media (max-width: 52rem) {\n\
    \x20 thead { position: absolute; width: 1px; height: 1px; overflow: hidden; clip-path: inset(50\
    %); }\n\
    \x20 tbody tr { display: grid; grid-template-columns: 1fr auto; padding: .5rem 0; border-bottom\
    : 1px solid var(--line); }\n\
    \x20 tbody :is(th, td) { padding: .125rem 0; border: 0; }\n\
    \x20 tbody :is(.status, .each) { text-align: right; }\n\
    \x20 tbody .past { grid-column: 1 / -1; }\n\
    \x20 .each::before { content: \"each change \"; color: var(--quiet); font-size: .875rem; }\n\
    }\n\
    </style>\n\
    </head><body><main>\n\
    <h1>Services of <span id=\"host\">this server</span></h1>\n\
    <p id=\"sign\" role=\"status\">The server is asked.</p>\n\
    <p id=\"said\" class=\"hidden\" role=\"status\"></p>\n\
    <table role=\"table\" aria-label=\"Services\">\n\
    <thead role=\"rowgroup\"><tr role=\"row\">\n\
    <th role=\"columnheader\" scope=\"col\">Service</th>\n\
    <th role=\"columnheader\" scope=\"col\">Status</th>\n\
    <th role=\"columnheader\" scope=\"col\">Since</th>\n\
    <th role=\"columnheader\" scope=\"col\">Each change</th>\n\
    <th role=\"columnheader\" scope=\"col\">Since opened</th>\n\
    </tr></thead>\n\
    <tbody id=\"services\" role=\"rowgroup\"></tbody>\n\
    </table>\n\
    <h2 id=\"strip\">Changes since <time id=\"opened\"></time></h2>\n\
    <ol id=\"changes\" aria-labelledby=\"strip\"></ol>\n\
    <p id=\"none\" class=\"quiet\">None yet.</p>\n\
    <p class=\"quiet\">Times are this page's. With <i>each change</i> no change of a service is lef\
    t out: it is watched, up to four at a\n\
    time and in one page of a browser. The others are looked at once a second. <span id=\"last\"></\
    span></p>\n\
    <noscript><p>This page needs scripts. <a href=\"services\">services</a> and <a href=\"metrics\"\
    >metrics</a> do not.</p></noscript>\n\
    </main>\n\
    <script>\n\
    'use strict';\n\
    // A look asks for all services once a second, by one GET. The first one that fails, or takes t\
    oo long, takes all statuses away,\n\
    // so that a server that is gone or frozen leaves none behind for longer than 2.5 seconds.\n\
    //\n\
    // Looks would leave out what changes back within a second. So up to four services are watched \
    too, and a Watch is told each change\n\
    // once and in order. Not more: a browser opens at most six connections to a server that speaks\
    \x20HTTP/1.1, for all its pages\n\
    // together, and a Watch keeps one. So one page of a browser has the Watches, the one that was \
    opened or turned to last.\n\
    const WATCHES = 4, EVERY = 1000, LIMIT = 1500, STALE = 2500, AGAIN = 5000, KEPT = 1000, SEGMENT\
    S = 80;\n\
    const TIME = { day: 'numeric', month: 'short', hour: '2-digit', minute: '2-digit', second: '2-d\
    igit' };\n\
    const CODES = ['unknown', 'serving', 'not_serving', 'absent'];\n\
    const rows = new Map();\n\
    const element = id => document.getElementById(id);\n\
    const make = (tag, fields) => Object.assign(document.createElement(tag), fields);\n\
    const title = name => name === '' ? 'whole server' : name;\n\
    let heard = performance.now(), connected, watches = false, choices = 0, left = 0, news = [];\n\
    \n\
    function stamp(at, time = make('time')) {\n\
    \x20 time.dateTime = at.toISOString();\n\
    \x20 time.textContent = at.toLocaleString('en-GB', TIME);\n\
    \x20 return time;\n\
    }\n\
    \n\
    function rowOf(name) {\n\
    \x20 const heading = make('th', { scope: 'row', role: 'rowheader', textContent: title(name) });\
    \n\
    \x20 const [status, since, each, past] = ['status', 'since', 'each', 'past'].map(className => m\
    ake('td', { role: 'cell', className }));\n\
    \x20 const strip = make('div', { role: 'img', className: 'strip' }), line = make('tr', { role: \
    'row' });\n\
    \x20 const box = make('input', { type: 'checkbox', onchange: () => choose(row, box.checked) });\
    \n\
    \x20 box.ariaLabel = `each change of ${title(name)}`;\n\
    \x20 const note = make('span', { className: 'quiet' });\n\
    \x20 past.append(strip);\n\
    \x20 each.append(box, note);\n\
    \x20 line.append(heading, status, since, each, past);\n\
    \x20 const row = { name, line, status, since, strip, box, note, changes: 0, chosen: 0, told: 0,\
    \x20doubts: 0, again: 0 };\n\
    \x20 return row;\n\
    }\n\
    \n\
    // Shows a status. One that comes first, or after a loss, began before it was seen.\n\
    function show(row, shown) {\n\
    \x20 if (row.shown === shown) return;\n\
    \x20 const now = new Date(), before = row.shown, found = before === undefined || before === 'lo\
    st';\n\
    \x20 row.shown = shown;\n\
    \x20 row.status.className = `status ${shown}`;\n\
    \x20 row.status.textContent = shown;\n\
    \x20 row.since.replaceChildren(found ? 'before ' : '', stamp(now));\n\
    \x20 grow(row);\n\
    \x20 row.strip.append(make('i', { className: shown, title: `${shown} from ${now.toLocaleString(\
    )}` }));\n\
    \x20 row.strip.lastChild.began = performance.now();\n\
    \x20 if (row.strip.childElementCount > SEGMENTS) row.strip.firstChild.remove();\n\
    \x20 if (before !== undefined) log(row, before, now);\n\
    \x20 row.strip.ariaLabel = `${row.changes} changes since the page was opened`;\n\
    }\n\
    \n\
    // Each segment of a strip is as wide as it lasted, and never too narrow to be seen.\n\
    function grow(row) {\n\
    \x20 const last = row.strip.lastChild;\n\
    \x20 if (last) last.style.flexGrow = performance.now() - last.began;\n\
    }\n\
    \n\
    function log(row, before, now) {\n\
    \x20 row.changes += 1;\n\
    \x20 const shown = make('span', { className: `status ${row.shown}`, textContent: row.shown });\
    \n\
    \x20 const line = make('li'), list = element('changes');\n\
    \x20 line.append(stamp(now), ' ', make('b', { textContent: title(row.name) }), ` ${before} \\u2\
    192 `, shown);\n\
    \x20 list.prepend(line);\n\
    \x20 for (; list.childElementCount > KEPT; left += 1) list.lastChild.remove();\n\
    \x20 element('none').textContent = left ? `${left} older ones are left out.` : '';\n\
    \x20 if (row.shown !== 'lost') news.push(`${title(row.name)} ${row.shown}`);\n\
    }\n\
    \n\
    function sign(now) {\n\
    \x20 if (connected === now) return;\n\
    \x20 connected = now;\n\
    \x20 element('sign').className = now ? '' : 'lost';\n\
    \x20 element('sign').textContent = now ? 'Connected. The server is asked each second.'\n\
    \x20   : 'Connection lost: the server does not answer. No status is known. It is asked again ea\
    ch second.';\n\
    }\n\
    \n\
    function lose() {\n\
    \x20 for (const row of rows.values()) {\n\
    \x20   row.watch?.abort();\n\
    \x20   row.again = 0;\n\
    \x20   show(row, 'lost');\n\
    \x20 }\n\
    \x20 sign(false);\n\
    \x20 head();\n\
    }\n\
    \n\
    function head() {\n\
    \x20 const all = [...rows.values()], serving = all.filter(row => row.shown === 'serving').lengt\
    h;\n\
    \x20 document.title = `${connected ? `${serving} of ${all.length} serving` : 'lost'} \\u00b7 ${\
    location.host}`;\n\
    }\n\
    \n\
    // A look at all services. A Watch knows better, unless two looks in a row say otherwise.\n\
    async function look() {\n\
    \x20 const asked = performance.now();\n\
    \x20 const response = await fetch('services', { cache: 'no-store', signal: AbortSignal.timeout(\
    LIMIT) });\n\
    \x20 if (!response.ok) throw new Error(`HTTP ${response.status}`);\n\
    \x20 const { services } = await response.json();\n\
    \x20 heard = performance.now();\n\
    \x20 element('last').replaceChildren('Last answer: ', stamp(new Date()));\n\
    \x20 arrange(services.map(service => service.name));\n\
    \x20 for (const { name, status } of services) {\n\
    \x20   const row = rows.get(name);\n\
    \x20   if (asked < row.told) continue;\n\
    \x20   if (row.watch && row.shown !== status && row.doubts++ === 0) continue;\n\
    \x20   if (row.shown !== status) row.watch?.abort();\n\
    \x20   row.doubts = 0;\n\
    \x20   show(row, status);\n\
    \x20 }\n\
    \x20 sign(true);\n\
    \x20 head();\n\
    \x20 for (const row of rows.values()) if (watches && row.chosen && !row.watch && asked >= row.a\
    gain) watch(row);\n\
    }\n\
    \n\
    function arrange(names) {\n\
    \x20 if (names.join('\\n') === [...rows.keys()].join('\\n')) return;\n\
    \x20 const kept = names.map(name => rows.get(name) ?? rowOf(name));\n\
    \x20 for (const row of rows.values()) if (!kept.includes(row)) row.watch?.abort();\n\
    \x20 rows.clear();\n\
    \x20 for (const row of kept) rows.set(row.name, row);\n\
    \x20 element('services').replaceChildren(...kept.map(row => row.line));\n\
    \x20 const first = [...kept.filter(row => row.name !== '').slice(0, WATCHES - 1), ...kept.filte\
    r(row => row.name === '')];\n\
    \x20 const more = WATCHES - kept.filter(row => row.chosen).length;\n\
    \x20 for (const row of first.filter(row => !row.chosen).slice(0, more)) choose(row, true);\n\
    }\n\
    \n\
    // Where one more is chosen than can be watched, the one that was chosen first is left out.\n\
    function choose(row, chosen) {\n\
    \x20 row.chosen = chosen ? choices += 1 : 0;\n\
    \x20 [...rows.values()].sort((one, other) => other.chosen - one.chosen).forEach((row, at) => {\
    \n\
    \x20   if (at >= WATCHES) row.chosen = 0;\n\
    \x20   if (!row.chosen) row.watch?.abort();\n\
    \x20   row.box.checked = row.chosen > 0;\n\
    \x20 });\n\
    \x20 row.again = 0;\n\
    }\n\
    \n\
    // A frame of gRPC-Web: a flag of one byte, the length in four, and the content, here a HealthC\
    heckRequest with field 1, the name.\n\
    function request(name) {\n\
    \x20 const text = new TextEncoder().encode(name), size = text.length;\n\
    \x20 const content = size === 0 ? [] : [0x0a, ...(size < 128 ? [size] : [size & 127 | 128, size\
    \x20>> 7]), ...text];\n\
    \x20 return Uint8Array.of(0, 0, 0, content.length >> 8, content.length & 255, ...content);\n\
    }\n\
    \n\
    async function watch(row) {\n\
    \x20 const control = row.watch = new AbortController();\n\
    \x20 row.again = performance.now() + AGAIN;\n\
    \x20 try {\n\
    \x20   const response = await fetch('grpc.health.v1.Health/Watch', {\n\
    \x20     method: 'POST', headers: { 'content-type': 'application/grpc-web+proto' }, body: reque\
    st(row.name), signal: control.signal,\n\
    \x20   });\n\
    \x20   const reader = response.ok ? response.body.getReader() : null;\n\
    \x20   let held = new Uint8Array(0), ended = !reader;\n\
    \x20   while (!ended) {\n\
    \x20     const { value, done } = await reader.read();\n\
    \x20     if (done || control.signal.aborted) break;\n\
    \x20     const bytes = new Uint8Array(held.length + value.length);\n\
    \x20     bytes.set(held);\n\
    \x20     bytes.set(value, held.length);\n\
    \x20     let at = 0;\n\
    \x20     while (bytes.length >= at + 5) {\n\
    \x20       const size = new DataView(bytes.buffer).getUint32(at + 1);\n\
    \x20       if (bytes.length < at + 5 + size) break;\n\
    \x20       if (bytes[at] & 0x80) ended = true;\n\
    \x20       else tell(row, control, CODES[size === 0 ? 0 : bytes[at + 6]] ?? 'unknown');\n\
    \x20       at += 5 + size;\n\
    \x20     }\n\
    \x20     held = bytes.slice(at);\n\
    \x20   }\n\
    \x20 } catch {\n\
    \x20   // It was cut, and is opened again.\n\
    \x20 }\n\
    \x20 control.abort();\n\
    \x20 if (row.watch === control) row.watch = null;\n\
    }\n\
    \n\
    // What a Watch tells. Behind a loss it is not believed before the server has answered a look.\
    \n\
    function tell(row, control, status) {\n\
    \x20 if (control.signal.aborted || !connected) return;\n\
    \x20 row.told = performance.now();\n\
    \x20 row.doubts = 0;\n\
    \x20 show(row, status);\n\
    \x20 head();\n\
    }\n\
    \n\
    // A page that was put to sleep has old statuses when it is shown again: the clock counts, and \
    not the looks alone.\n\
    function tick() {\n\
    \x20 if (performance.now() - heard > STALE && connected !== false) lose();\n\
    \x20 for (const row of rows.values()) {\n\
    \x20   grow(row);\n\
    \x20   row.note.textContent = !row.chosen || row.watch ? '' : watches ? ' Watch ended' : ' in a\
    nother page';\n\
    \x20 }\n\
    }\n\
    \n\
    async function run() {\n\
    \x20 for (;;) {\n\
    \x20   await look().catch(lose);\n\
    \x20   element('said').textContent = news.length > 5 ? `${news.length} changes, the last: ${new\
    s.at(-1)}` : news.join(', ');\n\
    \x20   news = [];\n\
    \x20   await new Promise(resolve => setTimeout(resolve, EVERY));\n\
    \x20 }\n\
    }\n\
    \n\
    function claim() {\n\
    \x20 tick();\n\
    \x20 if (document.hidden) return;\n\
    \x20 watches = true;\n\
    \x20 pages.postMessage('watches');\n\
    }\n\
    const pages = new BroadcastChannel('healthd');\n\
    pages.onmessage = () => {\n\
    \x20 watches = false;\n\
    \x20 for (const row of rows.values()) row.watch?.abort();\n\
    };\n\
    stamp(new Date(), element('opened'));\n\
    element('host').textContent = location.host;\n\
    addEventListener('focus', claim);\n\
    document.addEventListener('visibilitychange', claim);\n\
    setInterval(tick, 250);\n\
    claim();\n\
    run();\n\
    </script>\n\
    </body></html>\n";

pub(crate) fn page_bytes() -> &'static [u8]
    ensures { result.now ≡ page }
{
    PAGE
}
